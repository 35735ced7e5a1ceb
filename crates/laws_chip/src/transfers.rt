// A command of several sectors, from its last byte to what the host reads. The bodies are empty: the contracts say what
// follows from what each call does.
ghost use Rattle.std.specs.Prelude.{◌≡◌, ◌<◌, ℕ, true, false, Some, List};
ghost use Rattle.laws_chip.specs.Common.{Results, Transfer, ChipState, with_front, interrupts_chip, asks_chip, code_of, Obeys, implies, is_size, transfer_sent, looks_for_cylinder, StepsChip, TransferCode, Busy, Sent, Sought};
ghost use Rattle.fdc_sequencer.specs.Opcodes.{opcode_of};
ghost use Rattle.fdc_sequencer.specs.declared.stage.FrontStage.TheVariants as behind;
ghost use Rattle.laws_chip.specs.SectorLasting.{is_under_way};
ghost use Rattle.laws_chip.specs.Beginning.{IsBegun, IsFreeBehind, IsServed, spelled_opcode};
ghost use Rattle.laws_chip.specs.Calls.{AreServed, ArePassedOn, Call, Does, IsPassedOn, IsServing, is_reset, is_step};
ghost use Rattle.laws_chip.specs.Told.{LooksFor, LooksOrTells, Tells};

/// A command of sectors that this medium can have begins in the sequencer, if the inner controller is free. It is served
/// from then on, and nothing of it has passed yet. What the sequencer makes of its code spells this code again.
pub fn a_transfer_is_begun()
    ensures codes { (code : ℕ) → code < 256 → code_of code ≡ Some (TransferCode true) → spelled_opcode (opcode_of code) ≡ code }
    ensures begins { (old new : ChipState) → is_size old.order.key.n ≡ true → IsFreeBehind old.front → Obeys (TransferCode true) old new
        → IsBegun (transfer_sent (implies old) old.order) new }
{}

/// While the command is under way each call of the chip is the sequencer's: a device step, each byte, by the channel or
/// by the data port, and the terminal count. The same holds of calls one after the other, in as many device steps.
pub fn calls_are_passed_on()
    ensures one { (made : Call) (old new : ChipState) → IsServing old → Does made old new → IsServing new → IsPassedOn made old new }
    ensures all { (calls : List Call) (old new : ChipState) (served : AreServed calls old new) → IsServing old → ArePassedOn calls old new served }
{}

/// The command goes on through each call except a reset, and through each device step after which it is under way.
pub fn a_served_chip_goes_on()
    ensures steps { (old new : ChipState) (step : StepsChip old new) → IsServing old → is_under_way step.between.stage ≡ true → new ≡ with_front step.between old }
    ensures calls { (made : Call) (old new : ChipState) → IsServing old → Does made old new → is_step made ≡ false → is_reset made ≡ false → IsServing new }
{}

/// In the step in which the sequencer has results the chip gives them to the host. There is one exception: if the only
/// error is ND and the command has a sector ID, READ ID first looks which cylinder passes. The chip gives the results
/// once READ ID ended, with nothing but WC and BC added.
pub fn what_the_sequencer_tells_is_told()
    ensures told { (results : Results) (old new : ChipState) (step : StepsChip old new) → old.stage ≡ Busy Sent → step.between.stage ≡ behind.Telling results
        → looks_for_cylinder old.order results ≡ false → Tells results new }
    ensures looks { (results : Results) (old new : ChipState) (step : StepsChip old new) → old.stage ≡ Busy Sent → step.between.stage ≡ behind.Telling results
        → looks_for_cylinder old.order results ≡ true → LooksFor results step.between new }
    ensures cylinder { (first : Results) (old new : ChipState) → StepsChip old new → old.stage ≡ Busy (Sought first) → LooksOrTells first new }
    ensures interrupt { (results : Results) (chip : ChipState) → Tells results chip → interrupts_chip chip ≡ chip.gated }
    ensures request { (results : Results) (chip : ChipState) → Tells results chip → asks_chip chip ≡ false }
{}

/// From the last byte of a command to the sequencer's results, the bytes that pass are those of the command's sectors,
/// in order. The results say of the sectors how the command ended.
pub fn a_transfer_moves_its_sectors()
    ensures { (first : Transfer) (calls : List Call) (begun last new : ChipState) (served : AreServed calls begun last) (step : StepsChip last new) (results : Results)
        → IsBegun first begun → step.between.stage ≡ behind.Telling results → IsServed first calls begun last new served step results }
{}
