// A command of several sectors ends, and its end is seen in a certain way. The bodies are empty: the contracts say what
// follows from what each call does.
ghost use Rattle.std.specs.Prelude.{◌≡◌, ◌<◌, ◌≤◌, ◌+◌, ℕ, true, false, List, ◌++◌, Some, replicate};
ghost use Rattle.laws_chip.specs.Common.{bit_or, Results, IsInRange, is_gated, Front, asks_outside, interrupts_outside, results_outside, results_taken, seeking_bit, value_outside, is_last, next_of, Through, Telling, Transfer};
ghost use Rattle.fdc_registers.specs.Msr.{busy};
ghost use Rattle.laws_chip.specs.SectorCalls.{AreWithin, Begins, Call, Steps};
ghost use Rattle.laws_chip.specs.SectorLasting.{HasByteNumbers, HasByteRecords, HasResults, is_under_way, most_steps, sectors_from, steps_in};

/// A command of several sectors ends, whatever calls come between. It takes at most 256 device steps for an implied
/// seek and 65,536 for each of its sectors, unless each access is the controller's again before. Then there are
/// results. `ranges` says of a sequencer, as it begins, that its numbers are in range.
pub fn a_command_ends()
    ensures within { (first : Transfer) (start begun end : Front) (calls : List Call)
        → Begins first start begun → HasByteNumbers begun.stage → IsInRange begun.adapter.controller → AreWithin calls begun end → is_under_way end.stage ≡ true → steps_in calls < most_steps first }
    ensures ends { (first : Transfer) (start begun end : Front) (calls : List Call)
        → Begins first start begun → HasByteNumbers begun.stage → IsInRange begun.adapter.controller → AreWithin calls begun end → most_steps first ≤ steps_in calls → HasResults end }
{}

/// A command has at most 512 sectors, and one fewer from each next sector on. A run is as many device steps.
pub fn sectors_and_steps_are_counted()
    ensures most { (at : Transfer) → sectors_from at ≤ 512 }
    ensures next { (at : Transfer) → HasByteRecords at → is_last at ≡ false → sectors_from (next_of at) + 1 ≡ sectors_from at }
    ensures run { (n : ℕ) → steps_in (replicate n Steps) ≡ n }
    ensures both { (first second : List Call) → steps_in (first ++ second) ≡ steps_in first + steps_in second }
{}

/// How the end is seen. While a sector is moved MSR is 10, and while the heads seek it has the seek bit of the drive
/// too. INT is down meanwhile. Then MSR is D0, DRQ is down, and INT is up until the results are taken, where DOR lets it
/// out. The results are then those that the command ended with.
pub fn results_are_told()
    ensures busy { (front : Front) → is_under_way front.stage ≡ true → value_outside 0x3F4 front ≡ bit_or busy (seeking_bit front.stage) }
    ensures silent { (front : Front) → is_under_way front.stage ≡ true → interrupts_outside front ≡ false }
    ensures status { (front : Front) (results : Results) → front.stage ≡ Telling results → value_outside 0x3F4 front ≡ 0xD0 }
    ensures interrupt { (front : Front) (results : Results) → front.stage ≡ Telling results → interrupts_outside front ≡ is_gated front.adapter.controller }
    ensures request { (front : Front) (results : Results) → front.stage ≡ Telling results → asks_outside front ≡ false }
    ensures results { (front : Front) (results : Results) → front.stage ≡ Telling results → results_outside front ≡ Some results }
    ensures taken { (front : Front) (results : Results) → front.stage ≡ Telling results → (results_taken front).stage ≡ Through }
{}
