// The subcommand that rescues what it can of a disk.
ghost use Rattle.std.specs.Prelude.{◌≡◌, ◌≢◌, List, Some, None};
ghost use Rattle.laws_program.specs.Common.{Files, file_at, Disk, IsImageOf, IsUnmistaken, IsEndStatus, Status, DriveCounts, Board, Outside, world, RunsOver, LogLine, BringsUpNoMark, IsRescue, StoresDiskThenLog, IsRegularDisk};
ghost use Rattle.laws_program.specs.Disturbed.{HadNoFault, HadNoStall};
ghost use Rattle.laws_program.specs.Stored.{StoresLogOf};
ghost use Rattle.laws_program.specs.Told.{IsNotToldStopped};
ghost use Rattle.floppy_words.specs.declared.form.Form.TheVariants as form;

/// A law: however `rescue FROM TO LOG` ends, the stores that it made are a first part of two. The first is of a disk
/// under TO, and the second is of a log under LOG.
pub fn rescue_stores_in_order(_from: &str, _to: &str, _log: &str)
    ensures { (spares : List DriveCounts) (old new : Board) (before after : Outside) (ended : Status)
        → RunsOver (Some (form.Rescue _from.now _to.now _log.now)) old spares before new after ended
        → (lines : List LogLine) × StoresDiskThenLog _to.now _log.now lines before.files after.files }
{}

/// A law on a `rescue FROM TO LOG` of which these premises hold:
/// - It ends with status 0 or 1, and its report doesn't say that a refusal stopped it.
/// - FROM is the image of a disk whose address fields can't be mistaken.
/// - The drive of bay 0 had no fault, and no DMA was late.
///
/// The file LOG is then the log of those sectors that were asked for and aren't found on that disk, in their order,
/// each with the code of its look. The rescue asks for the sectors of the log that was there, or for all if there was
/// none.
pub fn rescue_logs_the_rest(_from: &str, _to: &str, _log: &str)
    ensures { (spares : List DriveCounts) (old new : Board) (before after : Outside) (ended : Status) (files : Files) (disk : Disk)
        → RunsOver (Some (form.Rescue _from.now _to.now _log.now)) old spares before new after ended → IsEndStatus ended
        → IsNotToldStopped before.report after.report
        → before.files ≡ Some files → IsImageOf (Some files) _from.now disk
        → HadNoFault 0 old new → HadNoStall old new → IsUnmistaken disk
        → StoresLogOf disk _log.now files after.files }
{}

/// A law on a new `rescue FROM TO LOG`, of which these premises hold:
/// - It ends with status 0 or 1, and its report doesn't say that a refusal stopped it.
/// - No file LOG was there, and TO and LOG differ.
/// - FROM is the image of a disk.
/// - The drive of bay 1 had no fault. The drive of bay 0 may have had any faults.
///
/// Then a disk is stored under TO, and after it a log under LOG. Each sector is either in that log, with the code that
/// its read gave, or on that disk, with the mark and the content that its read gave, and never in both. What its read
/// gave is the mark and the content of an intact field of its sector ID on FROM. The last line says how many sectors
/// are on the disk, and how many there are in all.
pub fn new_rescue_settles_each_record(_from: &str, _to: &str, _log: &str)
    ensures { (spares : List DriveCounts) (old new : Board) (before after : Outside) (ended : Status) (files : Files) (disk : Disk)
        (over : RunsOver (Some (form.Rescue _from.now _to.now _log.now)) old spares before new after ended) → IsEndStatus ended
        → IsNotToldStopped before.report after.report → _to.now ≢ _log.now
        → before.files ≡ Some files → IsImageOf (Some files) _from.now disk → file_at files _log.now ≡ None
        → HadNoFault 1 old new
        → IsRescue disk disk _to.now _log.now files (world over.start before.files before.report) over.runs.course
        (world over.last after.files after.report) ended }
{}

/// A law: the same holds if a file LOG may be there, with two premises in place of that one. TO is the image of a
/// regular disk. No write of the run brings up an address mark on it, either because its address fields are on Laid
/// tracks, or because each write is Tidy. If there is a log, the rescue asks for the sectors of that log, and all other
/// entries of TO's map stay.
///
/// A run of either kind leaves what a later run needs: the image of a regular disk, and a log. The disk's address
/// fields are on Laid tracks if the disk was new or if they were so before.
pub fn further_rescue_settles_each_record(_from: &str, _to: &str, _log: &str)
    ensures { (spares : List DriveCounts) (old new : Board) (before after : Outside) (ended : Status) (files : Files) (disk target : Disk)
        (over : RunsOver (Some (form.Rescue _from.now _to.now _log.now)) old spares before new after ended) → IsEndStatus ended
        → IsNotToldStopped before.report after.report → _to.now ≢ _log.now
        → before.files ≡ Some files → IsImageOf (Some files) _from.now disk → HadNoFault 1 old new
        → IsImageOf (Some files) _to.now target → IsRegularDisk target → BringsUpNoMark target over.start over.runs.course
        → IsRescue disk target _to.now _log.now files (world over.start before.files before.report) over.runs.course
        (world over.last after.files after.report) ended }
{}
