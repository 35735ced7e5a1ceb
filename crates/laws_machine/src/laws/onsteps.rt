// What follows of every course of calls: device steps, and whatever is done between them. The bodies are empty.
ghost use Rattle.std.specs.Prelude.{◌≡◌, ◌≤◌, ◌+◌, ◌-◌, ℕ, Bool, false, true};
ghost use Rattle.laws_machine.specs.Common.{is_executing, steps_left, IsCounted, AreShort, Board, IsInRange, controller_of, holds_of, latch_of, Touches, byte_set, irq_taken, Inputs, Outputs, Runs, RunsToIrq, Waits, stirred};
ghost use Rattle.laws_machine.specs.OnSteps.Ends.{Counts, RunsNoSeek, IsOver, Meets, Recalibrates, pulses_left, seeks};
ghost use Rattle.laws_machine.specs.OnSteps.Lasts.{Lasts, clock_of};
ghost use Rattle.laws_machine.specs.OnSteps.Moves.{Goes};
ghost use Rattle.laws_machine.specs.OnSteps.Steady.{Marching, Steady};
ghost use Rattle.laws_machine.specs.OnSteps.Uses.{Uses};
ghost use Rattle.irq_events.specs.Entries.{next_entry};

/// Each call of the machine is a course of a known number of device steps.
pub fn calls_are_courses()
    ensures wait { (n : ℕ) (old new : Board) → Runs n (stirred old) new → Goes old n new }
    ensures wait_irq { (most : ℕ) (set : Bool) (old new : Board) → (waits : Waits most old set new) → Goes old waits.steps new }
    ensures run_to_irq { (most steps : ℕ) (old new : Board) → RunsToIrq most old steps new → Goes old steps new }
    ensures read { (port value : ℕ) (old new : Board) → Inputs port old value new → Goes old (next_entry old.bus.gaps) new }
    ensures write { (port value : ℕ) (old new : Board) → Outputs port value old new → Goes old (next_entry old.bus.gaps) new }
    ensures take_irq { (old : Board) → Goes old 0 (record old { bus = irq_taken old.bus }) }
    ensures set_byte { (address value : ℕ) (old : Board) → Goes old 0 (record old { bus = byte_set address value old.bus }) }
    ensures handle { (bay : ℕ) (old new : Board) → Touches bay old new → Goes old 0 new }
{}

/// After as many device steps as were left of a data command, no data command is in execution, unless another one
/// began. This holds whatever calls came between. At most 65,536 device steps are left of any, so each course of that
/// length or more passes such a point after at most 65,536. A reset ends the command too. Each device step leaves one
/// fewer, whatever the timing of the machine.
pub fn a_data_command_ends()
    ensures steps { (start : Board) → Marching (λ n board. steps_left (controller_of board).phase ≤ steps_left (controller_of start).phase - n) }
    ensures left { (old new : Board) (n : ℕ) → Goes old n new → IsCounted (controller_of old).phase
        → steps_left (controller_of old).phase ≤ n → IsOver old new }
    ensures most { (old new : Board) (n : ℕ) → Goes old n new → 65536 ≤ n → IsOver old new }
    ensures meets { (old new : Board) (n : ℕ) → Goes old n new → 65536 ≤ n → Meets (IsOver old) 65536 old n new }
{}

/// A seek that runs comes to its end in no more device steps than are left of it, whatever calls come between. These
/// are 256 at most, and 80 for a RECALIBRATE. A reset ends the seek too.
pub fn a_seek_ends()
    ensures ends { (old new : Board) (n : ℕ) → Goes old n new → is_executing (controller_of old).phase ≡ false → seeks old
        → pulses_left old ≤ n → Meets RunsNoSeek (pulses_left old) old n new }
    ensures most { (board : Board) → IsInRange board → pulses_left board ≤ 256 }
    ensures recalibrates { (board : Board) → IsInRange board → Recalibrates board → pulses_left board ≤ 80 }
{}

/// Device steps are counted, and nothing else is. A wait for the interrupt adds no more than its number, and exactly
/// that number if the wait answers false.
pub fn device_steps_are_counted()
    ensures course { (n : ℕ) (old new : Board) → Goes old n new → Counts n old new }
    ensures wait_irq { (most : ℕ) (set : Bool) (old new : Board) → Waits most old set new
        → (n : ℕ) × (n ≤ most) × (set ≡ false → n ≡ most) × Counts n old new }
{}

/// A DMA latency that is left stays below 256, and so does what is left of the latency of a request.
pub fn holds_stay_short()
    ensures { Steady (λ board. AreShort (holds_of board)) }
{}

/// Each call of the machine lasts at most as many device steps as the call is given, besides those of the gaps after
/// port accesses, which are used up. Add the device steps that were counted to those of the gaps that are still to
/// come. This sum rises by no more than the sum of what the calls last, whatever the gaps, the spurious interrupts and
/// the DMA latencies are.
pub fn calls_last()
    ensures wait { (n : ℕ) (old new : Board) → Runs n (stirred old) new → Lasts n old new }
    ensures wait_irq { (most : ℕ) (set : Bool) (old new : Board) → Waits most old set new → Lasts most old new }
    ensures run_to_irq { (most steps : ℕ) (old new : Board) → RunsToIrq most old steps new → Lasts steps old new }
    ensures read { (port value : ℕ) (old new : Board) → Inputs port old value new → Lasts 0 old new }
    ensures write { (port value : ℕ) (old new : Board) → Outputs port value old new → Lasts 0 old new }
    ensures take_irq { (old : Board) → Lasts 0 old (record old { bus = irq_taken old.bus }) }
    ensures set_byte { (address value : ℕ) (old : Board) → Lasts 0 old (record old { bus = byte_set address value old.bus }) }
    ensures handle { (bay : ℕ) (old new : Board) → Touches bay old new → Lasts 0 old new }
    ensures twice { (n m : ℕ) (a b c : Board) → Lasts n a b → Lasts m b c → Lasts (n + m) a c }
    ensures clock { (most : ℕ) (old new : Board) → Lasts most old new → clock_of new ≤ clock_of old + most }
{}

/// A port access uses up at most one gap, and no other call of the machine uses up any. A look at a port that follows an
/// interrupt is one of those that `Uses` allows for each interrupt. So if a course uses up at most `n` gaps, whatever
/// gaps there are, it makes at most `n` port accesses, and one more for each interrupt that it takes.
pub fn calls_use_few_gaps()
    ensures wait { (n : ℕ) (old new : Board) → Runs n (stirred old) new → Uses 0 old new }
    ensures wait_irq { (most : ℕ) (set : Bool) (old new : Board) → Waits most old set new → Uses 0 old new }
    ensures run_to_irq { (most steps : ℕ) (old new : Board) → RunsToIrq most old steps new → Uses 0 old new }
    ensures read { (port value : ℕ) (old new : Board) → Inputs port old value new → Uses 1 old new }
    ensures write { (port value : ℕ) (old new : Board) → Outputs port value old new → Uses 1 old new }
    ensures take_irq { (old : Board) → Uses 0 old (record old { bus = irq_taken old.bus }) }
    ensures look { (port value : ℕ) (old new : Board) → (latch_of old).is_set ≡ true
        → Inputs port (record old { bus = irq_taken old.bus }) value new → Uses 0 old new }
    ensures set_byte { (address value : ℕ) (old : Board) → Uses 0 old (record old { bus = byte_set address value old.bus }) }
    ensures handle { (bay : ℕ) (old new : Board) → Touches bay old new → Uses 0 old new }
    ensures twice { (n m : ℕ) (a b c : Board) → Uses n a b → Uses m b c → Uses (n + m) a c }
{}
