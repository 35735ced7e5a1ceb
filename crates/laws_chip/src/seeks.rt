// Seeks and their end. The bodies are empty: the contracts say what follows from what each call does.
ghost use Rattle.std.specs.Prelude.{◌≡◌, ◌⊎◌, ◌+◌, ◌<◌, ◌≤◌, ◌%◌, ℕ, Option, Some, None, unwrap_or, true, false};
ghost use Rattle.laws_chip.specs.Common.{ChipState, interrupts_chip, code_of, drained, implies, needs_heads, pace_begun, cylinder_of, WritesChip, step_words, StepsChip, ChipOpcode, Order, ChipStage, Ready, Held};
ghost use Rattle.laws_chip.specs.Beginning.{Completes, IsDoneFree, IsHeldFor, completed, still_moves};
ghost use Rattle.laws_chip.specs.Calls.{Call, Does, is_reset, is_step};
ghost use Rattle.laws_chip.specs.PacedSeeks.{HeadsPaced, completes, most_paced, pulses_left};
ghost use Rattle.laws_chip.specs.Resets.{is_of_data_port};
ghost use Rattle.laws_chip.specs.Seeks.{EndsBySignal, HeadsGo, IsSoundInRange, goal_of, most_of, waits_for_heads};
ghost use Rattle.laws_chip.specs.Sound.{IsSound};

/// The last byte of a SEEK, RECALIBRATE or RELATIVE SEEK starts the heads of its drive, if heads stand and the strap
/// for the time of step pulses is off. They move for at most 256 device steps, and at most 80 of a RECALIBRATE. They go
/// on through all other calls except a reset, even while a command is held.
pub fn a_seek_begins()
    ensures comes { (code : ChipOpcode) (goal : Option ℕ) (byte : ℕ) (old new : ChipState) → IsSoundInRange old → IsSoundInRange new → byte < 256 → Completes code byte old → goal_of code (completed byte old) (drained old).interrupts ≡ Some goal
        → WritesChip 0x3F5 byte old new → still_moves old ≡ false → old.paced ≡ false → old.front.adapter.controller.poll_due ≡ false
        → HeadsGo (most_of goal) ((completed byte old).unit % 4) goal Ready new }
    ensures stays { (left drive : ℕ) (goal : Option ℕ) (stage : ChipStage) (made : Call) (old new : ChipState) → waits_for_heads stage ≡ true → HeadsGo left drive goal stage old
        → Does made old new → is_step made ≡ false → is_reset made ≡ false → is_of_data_port made ≡ false → HeadsGo left drive goal stage new }
{}

/// While heads move with a pulse in each device step, each step brings them one cylinder nearer, or their seek ends in
/// it. ST0 is then 20 with the drive, or 70 for a RECALIBRATE that doesn't reach track 0. The cylinder is where the
/// heads went, and INT rises, where DOR lets it out.
pub fn a_seek_ends_by_int()
    ensures steps { (left drive : ℕ) (goal : Option ℕ) (old new : ChipState) → IsSound old → HeadsGo (left + 1) drive goal Ready old → StepsChip old new
        → HeadsGo left drive goal Ready new ⊎ EndsBySignal drive goal old new }
    ensures some { (drive : ℕ) (goal : Option ℕ) (chip : ChipState) → HeadsGo 0 drive goal Ready chip → ⊥ }
    ensures interrupt { (drive : ℕ) (goal : Option ℕ) (old new : ChipState) → old.stage ≡ Ready → EndsBySignal drive goal old new → interrupts_chip new ≡ new.gated }
{}

/// A command that needs the inner controller is held while heads move, for at most as many device steps as they still
/// take. It is done in the device step in which they stand, by a chip whose inner controller is free.
pub fn a_held_command_starts()
    ensures comes { (left drive : ℕ) (goal : Option ℕ) (code : ChipOpcode) (byte : ℕ) (old new : ChipState) → IsSound old → byte < 256 → needs_heads code ≡ true
        → Completes code byte old → HeadsGo left drive goal Ready old → WritesChip 0x3F5 byte old new
        → IsHeldFor (completed byte old) new × HeadsGo left drive goal Held new }
    ensures steps { (left drive : ℕ) (goal : Option ℕ) (code : ChipOpcode) (order : Order) (old new : ChipState) → IsSound old → IsHeldFor order old → code_of order.code ≡ Some code
        → needs_heads code ≡ true → HeadsGo (left + 1) drive goal Held old → StepsChip old new
        → (IsHeldFor order new × HeadsGo left drive goal Held new) ⊎ IsDoneFree code order (implies old) new }
    ensures some { (drive : ℕ) (goal : Option ℕ) (chip : ChipState) → HeadsGo 0 drive goal Held chip → ⊥ }
{}

/// If the strap for the time of step pulses is on, the pulses come in the time that SPECIFY sets. The seek has as many
/// pulses as the cylinder that the chip counts is away from the target, and a RECALIBRATE has at most 79. All of them
/// take at most their times, and 255 device steps more. The seek goes on through all other calls except a reset, even
/// while a command is held.
pub fn a_paced_seek_begins()
    ensures comes { (code : ChipOpcode) (goal : Option ℕ) (byte : ℕ) (old new : ChipState) → IsSoundInRange old → IsSoundInRange new → byte < 256 → Completes code byte old → goal_of code (completed byte old) (drained old).interrupts ≡ Some goal
        → WritesChip 0x3F5 byte old new → still_moves old ≡ false → old.paced ≡ true → old.front.adapter.controller.poll_due ≡ false
        → HeadsPaced (most_paced (step_words new.settings) (pulses_left (pace_begun (completed byte old).unit (cylinder_of (completed byte old).unit (drained old).interrupts) goal)))
        ((completed byte old).unit % 4) goal Ready new }
    ensures few { (unit cylinder : ℕ) (goal : Option ℕ) → cylinder < 256 → unwrap_or goal 0 < 256 → pulses_left (pace_begun unit cylinder goal) ≤ 255 }
    ensures recalibrates { (unit cylinder : ℕ) → pulses_left (pace_begun unit cylinder None) ≤ 79 }
    ensures stays { (left drive : ℕ) (goal : Option ℕ) (stage : ChipStage) (made : Call) (old new : ChipState) → waits_for_heads stage ≡ true → HeadsPaced left drive goal stage old
        → Does made old new → is_step made ≡ false → is_reset made ≡ false → is_of_data_port made ≡ false → HeadsPaced left drive goal stage new }
{}

/// Each device step brings such a seek one step nearer to its last pulse. After the last pulse the inner controller is
/// given the command that ends the seek. From then on the law of seeks with a pulse in each device step tells the end.
pub fn a_paced_seek_ends()
    ensures steps { (left drive : ℕ) (goal : Option ℕ) (old new : ChipState) → IsSoundInRange old → IsSoundInRange new → HeadsPaced (left + 1) drive goal Ready old → StepsChip old new
        → HeadsPaced left drive goal Ready new ⊎ HeadsGo (most_of goal) drive goal Ready new }
    ensures some { (drive : ℕ) (goal : Option ℕ) (stage : ChipStage) (chip : ChipState) → HeadsPaced 0 drive goal stage chip → ⊥ }
{}

/// While heads move, or pulses are to come, the bytes of a command are taken. Those before its last one leave the heads
/// as they are.
pub fn a_command_comes_while_heads_move()
    ensures goes { (left drive : ℕ) (goal : Option ℕ) (byte : ℕ) (old new : ChipState) → HeadsGo left drive goal Ready old → WritesChip 0x3F5 byte old new → completes byte old ≡ false
        → HeadsGo left drive goal Ready new }
    ensures paced { (left drive : ℕ) (goal : Option ℕ) (byte : ℕ) (old new : ChipState) → HeadsPaced left drive goal Ready old → WritesChip 0x3F5 byte old new → completes byte old ≡ false
        → HeadsPaced left drive goal Ready new }
{}

/// A command that needs the inner controller is held while pulses are to come. It is still held when the inner
/// controller is given the command that ends the seek. From then on the law of held commands tells when it starts.
pub fn a_held_command_waits_for_pulses()
    ensures comes { (left drive : ℕ) (goal : Option ℕ) (code : ChipOpcode) (byte : ℕ) (old new : ChipState) → IsSound old → byte < 256 → needs_heads code ≡ true
        → Completes code byte old → HeadsPaced left drive goal Ready old → WritesChip 0x3F5 byte old new
        → IsHeldFor (completed byte old) new × HeadsPaced left drive goal Held new }
    ensures steps { (left drive : ℕ) (goal : Option ℕ) (code : ChipOpcode) (order : Order) (old new : ChipState) → IsSoundInRange old → IsSoundInRange new → IsHeldFor order old
        → code_of order.code ≡ Some code → needs_heads code ≡ true → HeadsPaced (left + 1) drive goal Held old → StepsChip old new
        → IsHeldFor order new × (HeadsPaced left drive goal Held new ⊎ HeadsGo (most_of goal) drive goal Held new) }
{}
