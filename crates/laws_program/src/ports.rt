// The status of port accesses, with no driver.
ghost use Rattle.std.specs.Prelude.{◌≡◌, ℕ, List, Some, None, Ok};
ghost use Rattle.laws_program.specs.Common.{Files, both, DriveCounts, Status, ports_of, PortLine, IsText, ports_file_of, Stand, Performed};
ghost use Rattle.text_commands.specs.PortCourses.{has_refusal};
ghost use Rattle.laws_program.specs.Ends.{EndsByReplies};
ghost use Rattle.laws_program.specs.Inserted.{IsDiskFile, InsertsDisks, media_among};

/// A law on `ports FILE`, where FILE is a text of port accesses of at most 4,194,304 bytes. Each file that it inserts
/// must be the file of a disk, or must have been stored by one of its ejects before. This isn't asked of an insert that
/// has to be refused.
///
/// The program ends with status 1 if some line of its run was refused, and else with 0. This is so unless memory ran
/// out, or the file store or the output failed, and counted the fault.
pub fn ports_status(_file: &str)
    ensures { (words : List (List ℕ)) (spares : List DriveCounts) (old new : Stand) (ended : Status) (files : Files) (text : List ℕ)
        (lines : List PortLine) (named : ports_file_of words ≡ Some _file.now)
        → old.outside.outside.files ≡ Some files → IsText (Some files) _file.now text → ports_of text ≡ Ok lines
        → InsertsDisks (IsDiskFile (Some files)) (both None) (media_among lines)
        → (done : Performed words spares old new ended)
        → EndsByReplies (has_refusal (done.does.ports _file.now named).1.course) old new ended }
{}
