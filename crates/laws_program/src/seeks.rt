// Seeks and data commands on a machine that was made and then used. The bodies are empty.
ghost use Rattle.std.specs.Prelude.{◌≡◌, ◌≤◌, ℕ, List, Some};
ghost use Rattle.laws_program.specs.Common.{DriveCounts, Status, ports_file_of, Stand, Performed, RunsNoSeek, Meets, Recalibrates, pulses_left, seeks, IsFreshBoard, Board, IsInRange, controller_of};
ghost use Rattle.machine_commands.specs.Ready.{IsIdle};
ghost use Rattle.machine_commands.specs.declared.motors.Motors.{Motors};
ghost use Rattle.laws_machine.specs.OnSteps.Moves.{Goes};
ghost use Rattle.laws_program.specs.Seeks.{IsUsed, NotBoth, SeeksEnd};

/// A law: no seek runs while a data command is in execution. This holds on a machine that was made and then used by
/// whatever calls. It holds between two commands on a machine that a driver set up. And it stays so on every course.
pub fn seeks_and_data_commands_stay_apart()
    ensures used { (board : Board) → IsUsed board → NotBoth (controller_of board) }
    ensures set_up { (motors : Motors) (board : Board) → IsIdle motors board → NotBoth (controller_of board) }
    ensures goes { (old new : Board) (n : ℕ) → Goes old n new → NotBoth (controller_of old) → NotBoth (controller_of new) }
{}

/// A law: a seek that runs on a machine that was made and used ends in no more device steps than are left of it,
/// whatever calls come between. These are at most 256, and at most 80 for a RECALIBRATE. A reset ends the seek too.
pub fn a_seek_of_a_used_machine_ends()
    ensures ends { (old new : Board) (n : ℕ) → IsUsed old → Goes old n new → seeks old → pulses_left old ≤ n
        → Meets RunsNoSeek (pulses_left old) old n new }
    ensures in_time { (old new : Board) (n : ℕ) → IsUsed old → IsInRange old → Goes old n new → seeks old → 256 ≤ n
        → Meets RunsNoSeek 256 old n new }
    ensures recalibrates { (old new : Board) (n : ℕ) → IsUsed old → IsInRange old → Goes old n new → Recalibrates old → 80 ≤ n
        → Meets RunsNoSeek 80 old n new }
{}

/// A law: in `ports FILE`, a seek that runs before some line ends within 256 device steps, if the lines from there on
/// wait as many. What else these lines do doesn't matter.
pub fn ports_seeks_end(_file: &str)
    ensures { (words : List (List ℕ)) (spares : List DriveCounts) (old new : Stand) (ended : Status)
        (named : ports_file_of words ≡ Some _file.now) → IsFreshBoard old.board → (done : Performed words spares old new ended)
        → SeeksEnd old.board (done.does.ports _file.now named).1.course new.board }
{}
