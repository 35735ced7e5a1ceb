// How long a command waits for heads, whatever was done before. The bodies are empty: the contracts say what follows from
// what each call does.
ghost use Rattle.std.specs.Prelude.{◌≡◌, ◌+◌, ◌*◌, ◌<◌, ◌≤◌, ℕ, List, Option, None, Some, max, true};
ghost use Rattle.laws_chip.specs.Common.{ChipState, needs_heads, pace_begun, WritesChip, step_words, ChipOpcode};
ghost use Rattle.fdc_chip.specs.declared.settings.Settings.{Settings};
ghost use Rattle.laws_chip.specs.Beginning.{Completes};
ghost use Rattle.laws_chip.specs.Bounds.{AreSeeking, HasRanges, HeadsGoOn, IsGiven, IsUsed, IsWorking, heads_of, heads_steps, wait_of};
ghost use Rattle.laws_chip.specs.Calls.{Call, steps_in};
ghost use Rattle.laws_chip.specs.PacedSeeks.{pulses_left};

/// If a chip that was made new and used by any calls is given a command, the command waits only for heads, and for a
/// bounded number of device steps. These are at most 256, unless pulses come in the time that SPECIFY sets.
pub fn a_held_command_waits_for_heads()
    ensures given { (code : ChipOpcode) (byte : ℕ) (old begun : ChipState) → IsUsed old → byte < 256 → needs_heads code ≡ true → Completes code byte old → WritesChip 0x3F5 byte old begun → IsWorking begun
        → IsGiven (wait_of begun) code byte old begun }
    ensures few { (chip : ChipState) → HasRanges chip → chip.pace ≡ None → heads_of chip ≤ 256 }
{}

/// Heads that move come to stand, whatever calls come: device steps, commands that don't need the inner controller, and
/// commands that are held. So every SEEK, RECALIBRATE and RELATIVE SEEK is over within its bound, with the strap for the
/// time of step pulses on and off. SPECIFY never sets more than 1,000 word times between two pulses.
pub fn heads_come_to_stand()
    ensures stand { (words : ℕ) (calls : List Call) (old new : ChipState) → IsUsed old → HeadsGoOn words old → AreSeeking words calls old new
        → steps_in calls < heads_steps words old.pace old.front.adapter.controller.seeks.seek }
    ensures begins { (words unit cylinder : ℕ) (goal : Option ℕ) → heads_steps words (Some (pace_begun unit cylinder goal)) None
        ≡ pulses_left (pace_begun unit cylinder goal) * (max words 256 + 1) + 257 }
    ensures words { (settings : Settings) → step_words settings ≤ 1000 }
{}
