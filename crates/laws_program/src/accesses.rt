// What holds of all port accesses, whatever the machine is doing. The bodies are empty.
ghost use Rattle.std.specs.Prelude.{◌≤◌, ℕ, Bool, List};
ghost use Rattle.laws_program.specs.Common.{RoseBy, Board, IsInRange, EndInTime, GuardsCourse};
ghost use Rattle.irq_events.specs.Entries.{next_entry};
ghost use Rattle.pc_bus.specs.Ports.{Inputs, Outputs};
ghost use Rattle.pc_bus.specs.Steps.{Runs, Waits, stirred};
ghost use Rattle.text_commands.specs.Benches.{Bench};
ghost use Rattle.text_commands.specs.PortCourses.{Taken, PortRun, waits_of};
ghost use Rattle.laws_program.specs.ChangedWords.{ChangesWords};

/// A port access changes at most one word of an unprotected medium for each device step of the gap after it. A wait
/// changes at most one for each of its own device steps. A protected medium stays as it is.
///
/// Lines leave the protected media that they don't take out. The count of device steps rises by at least what the lines
/// wait.
pub fn accesses_guard_media()
    ensures read { (port value : ℕ) (old new : Board) → Inputs port old value new
        → ChangesWords (next_entry old.bus.gaps) old new }
    ensures write { (port value : ℕ) (old new : Board) → Outputs port value old new
        → ChangesWords (next_entry old.bus.gaps) old new }
    ensures wait { (n : ℕ) (old new : Board) → Runs n (stirred old) new → ChangesWords n old new }
    ensures wait_irq { (most : ℕ) (old new : Board) (set : Bool) → Waits most old set new
        → (n : ℕ) × (n ≤ most) × ChangesWords n old new }
    ensures steps { (old new : Bench) (course : List Taken) → PortRun old course new
        → RoseBy (waits_of course) old.board.bus.steps new.board.bus.steps }
    ensures media { (old new : Bench) (course : List Taken) → PortRun old course new → GuardsCourse old course }
{}

/// Whatever the lines are, and from any line on: once they waited 65,536 device steps, a data command in execution has
/// ended, or another one began. Once they waited 256, a seek has ended, if no data command was in execution at that
/// line.
pub fn commands_end_in_time()
    ensures { (old new : Bench) (course : List Taken) → IsInRange old.board → PortRun old course new → EndInTime old course new }
{}
