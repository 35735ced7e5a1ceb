// What is true of a chip at each time. The bodies are empty: the contracts say what follows from what each call does.
ghost use Rattle.std.specs.Prelude.{◌≡◌, ◌<◌, ℕ, true, false, Some, List};
ghost use Rattle.laws_chip.specs.Common.{DriveState, ChipState, IsNewChip, with_front, code_of, implies, needs_heads, Paces, WritesChip, RunsChip, StepsChip, ChipOpcode, Order, Busy, Held, ChipTask};
ghost use Rattle.fdc_chip.specs.Pins.{ResetsByPin};
ghost use Rattle.laws_chip.specs.Beginning.{BeginsUnless, Completes, CompletesTransfer, IsDoneFree, IsHeldFor, IsTransferOf, completed, still_moves};
ghost use Rattle.laws_chip.specs.Calls.{AreMade, Call, Does, WritesByte, is_reset, is_step};
ghost use Rattle.laws_chip.specs.Sound.{IsSound};
ghost use Rattle.laws_chip.specs.Told.{IsBusyOrTells};

/// The parts of a chip agree, from the beginning on. If the chip is busy, its inner controller or its sequencer
/// executes something, of which no results wait. Otherwise they execute nothing. A run is as many device steps. The
/// parts also agree in a chip that was made new and used by any calls, and after a pulse on the reset pin.
pub fn a_chip_stays_sound()
    ensures begins { (bay0 bay1 : DriveState) (new : ChipState) → IsNewChip bay0 bay1 new → IsSound new }
    ensures calls { (made : Call) (old new : ChipState) → Does made old new → WritesByte made → IsSound old → IsSound new }
    ensures runs { (most n : ℕ) (old new : ChipState) → RunsChip most old n new → IsSound old → IsSound new }
    ensures used { (bay0 bay1 : DriveState) (calls : List Call) (made new : ChipState) → IsNewChip bay0 bay1 made → AreMade calls made new → IsSound new }
    ensures pin { (old new : ChipState) → ResetsByPin old new → IsSound old → IsSound new }
{}

/// A command that needs the inner controller is done with its last byte, or, if it was held, in the device step in
/// which heads stand. The inner controller is then free. What the step does to pulses that come in time comes first.
pub fn what_stands_behind_is_free()
    ensures comes { (code : ChipOpcode) (byte : ℕ) (old new : ChipState) → IsSound old → byte < 256 → needs_heads code ≡ true → Completes code byte old
        → WritesChip 0x3F5 byte old new → still_moves old ≡ false → IsDoneFree code (completed byte old) (implies old) new }
    ensures released { (code : ChipOpcode) (old new : ChipState) (step : StepsChip old new) → IsSound old → old.stage ≡ Held → code_of old.order.code ≡ Some code
        → (paced : ChipState) × Paces old.pace (with_front step.between old) paced × (still_moves paced ≡ false → IsDoneFree code old.order (implies old) new) }
{}

/// A command of sectors that this medium can have begins with its ninth byte. If heads move then, the command is held,
/// through all calls except a reset, up to the device step in which they stand. It begins in that step.
pub fn a_whole_transfer_begins()
    ensures comes { (byte : ℕ) (old new : ChipState) → IsSound old → byte < 256 → CompletesTransfer byte old
        → WritesChip 0x3F5 byte old new → BeginsUnless (still_moves old) (implies old) (completed byte old) new }
    ensures held { (order : Order) (made : Call) (old new : ChipState) → IsHeldFor order old → Does made old new → is_step made ≡ false → is_reset made ≡ false
        → IsHeldFor order new }
    ensures released { (order : Order) (old new : ChipState) (step : StepsChip old new) → IsSound old → IsHeldFor order old → IsTransferOf order
        → (paced : ChipState) × Paces old.pace (with_front step.between old) paced × BeginsUnless (still_moves paced) (implies old) order new }
{}

/// A chip that is busy stays busy until it gives results, and INT with them, or until it is reset.
pub fn no_command_is_silent()
    ensures { (made : Call) (task : ChipTask) (old new : ChipState) → Does made old new → old.stage ≡ Busy task → is_reset made ≡ false → IsBusyOrTells new }
{}
