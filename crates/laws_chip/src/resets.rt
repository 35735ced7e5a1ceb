// A reset, and what the host reads after it. The bodies are empty: the contracts say what follows from what each call
// does.
ghost use Rattle.std.specs.Prelude.{◌≡◌, ◌⊎◌, ◌+◌, ◌<◌, ℕ, true, false};
ghost use Rattle.laws_chip.specs.Common.{resets, is_held, ChipState, interrupts_chip, ReadsChip, WritesChip, value_behind, StepsChip, ChipStage, Ready};
ghost use Rattle.fdc_chip.specs.Quiet.{rests_at};
ghost use Rattle.laws_chip.specs.Calls.{Call, Does, is_reset, is_step};
ghost use Rattle.laws_chip.specs.Resets.{AwaitsPoll, HasPolls, is_of_data_port, telling_poll};
ghost use Rattle.laws_chip.specs.Sound.{IsSound};

/// A reset by DOR or DSR forgets what was under way, and its poll is to come. Until then INT is down, through all calls
/// that don't access the data port, and through device steps while DOR holds the controller in reset.
pub fn a_reset_awaits_its_poll()
    ensures resets { (port value : ℕ) (old new : ChipState) → WritesChip port value old new → resets port (value_behind port value) ≡ true → AwaitsPoll new }
    ensures stays { (made : Call) (old new : ChipState) → AwaitsPoll old → Does made old new → is_of_data_port made ≡ false
        → (is_step made ≡ false) ⊎ (is_held old.front.adapter.controller ≡ true) → AwaitsPoll new }
    ensures down { (chip : ChipState) → AwaitsPoll chip → interrupts_chip chip ≡ false }
{}

/// The poll comes in the first device step in which DOR doesn't hold the controller in reset. INT then rises, where DOR
/// lets it out, and the results of all four drives are pending.
pub fn a_reset_comes_to_its_poll()
    ensures polls { (old new : ChipState) → IsSound old → AwaitsPoll old → is_held old.front.adapter.controller ≡ false → StepsChip old new → HasPolls 0 Ready new }
    ensures interrupt { (old new : ChipState) → IsSound old → AwaitsPoll old → is_held old.front.adapter.controller ≡ false → StepsChip old new
        → interrupts_chip new ≡ new.gated }
{}

/// Four SENSE INTERRUPTs then report C0, C1, C2 and C3, each with cylinder 0. Each is the byte 08, and then two bytes
/// that are read. Any device steps may be made in between.
pub fn four_polls_are_sensed()
    ensures sends { (drive : ℕ) (old new : ChipState) → drive < 4 → HasPolls drive Ready old → WritesChip 0x3F5 8 old new → HasPolls (drive + 1) (telling_poll drive 0) new }
    ensures status { (drive first value : ℕ) (old new : ChipState) → HasPolls first (telling_poll drive 0) old → ReadsChip 0x3F5 old value new
        → (value ≡ 0xC0 + drive) × HasPolls first (telling_poll drive 1) new }
    ensures cylinder { (drive first value : ℕ) (old new : ChipState) → HasPolls first (telling_poll drive 1) old → ReadsChip 0x3F5 old value new
        → (value ≡ 0) × HasPolls first Ready new }
    ensures steps { (first : ℕ) (stage : ChipStage) (old new : ChipState) → rests_at stage ≡ true → HasPolls first stage old → StepsChip old new → HasPolls first stage new }
{}

/// The poll of a reset comes in the first device step in which DOR doesn't hold the controller in reset, whatever is
/// under way. Once the poll has come it isn't to come again, through all calls that don't reset.
pub fn a_step_makes_the_poll()
    ensures made { (old new : ChipState) → is_held old.front.adapter.controller ≡ false → StepsChip old new → new.front.adapter.controller.poll_due ≡ false }
    ensures stays { (made : Call) (old new : ChipState) → Does made old new → is_reset made ≡ false → old.front.adapter.controller.poll_due ≡ false
        → new.front.adapter.controller.poll_due ≡ false }
{}
