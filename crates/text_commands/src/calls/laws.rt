// What a call of INT 13h counts. The body is empty.
ghost use Rattle.std.specs.Prelude.{ℕ, List, Option};
ghost use Rattle.text_commands.specs.Common.{Files, State, Taken, Regs, Serves};
ghost use Rattle.text_commands.specs.CallCounts.{CountsCourse};

/// A call of INT 13h sends at most as many data commands as its requests allow. It accesses memory past the driver at
/// most once for each byte that a verify puts back.
pub fn calls_count()
    ensures { (status : ℕ) (regs answered : Regs) (old new : State) (told : Option Files) (kept : ℕ) (course : List Taken)
        → Serves status regs old told answered kept course new → CountsCourse old.station course new.station }
{}
