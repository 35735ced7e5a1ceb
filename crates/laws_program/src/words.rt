// Arguments (words) that are a subcommand (form).
ghost use Rattle.std.specs.Prelude.{◌≡◌, ℕ, List, Some};
ghost use Rattle.laws_program.specs.Common.{Status, DriveCounts, Form, form_of, Stand, RanOver, Performed};

/// A law: if the arguments are a subcommand, what the program ensures of its arguments is a run of that subcommand over
/// the machine. The other laws are on such runs.
pub fn form_of_words_ran()
    ensures { (words : List (List ℕ)) (asked : Form) (spares : List DriveCounts) (old new : Stand) (ended : Status)
        → form_of words ≡ Some asked → Performed words spares old new ended → RanOver (Some asked) spares old new ended }
{}
