// How long whole commands last at most, and how many port accesses they make.
ghost use Rattle.std.specs.Prelude.{◌≡◌, ◌+◌, length, List, ℕ, None, Some};
ghost use Rattle.laws_program.specs.Common.{DriveCounts, Files, file_at, sectors_at, Rate, R250, R500, Status, Request, Disk, IsImageOf, IsJob, job_port_accesses, job_time, Board, Outside, LogLine, IsLogFound, IsFlatFile, RunsOver};
ghost use Rattle.floppy_words.specs.declared.form.Form.TheVariants as form;
ghost use Rattle.laws_commands.specs.Times.{copy_port_accesses, copy_time, export_port_accesses, export_time, further_rescue_port_accesses, further_rescue_time, import_port_accesses, import_time, rescue_port_accesses, rescue_time, verify_port_accesses, verify_time, whole_format_port_accesses, whole_format_time};
ghost use Rattle.laws_program.specs.Lasting.{CostsRun};

/// A law on a `copy FROM TO`, where FROM is the image of a disk, whatever faults come and however it ends. It costs at
/// most its set-up, two acknowledgements, and for each track a format, a read of each record and a write of each. Each
/// of these may need three attempts.
pub fn copy_lasts(_from: &str, _to: &str)
    ensures { (spares : List DriveCounts) (old new : Board) (before after : Outside) (ended : Status) (files : Files) (disk : Disk)
        → RunsOver (Some (form.Copy _from.now _to.now)) old spares before new after ended
        → before.files ≡ Some files → IsImageOf (Some files) _from.now disk
        → CostsRun (copy_time disk) (copy_port_accesses disk) old new }
{}

/// A law: a `format NAME CYLINDERS` costs in the same way at most an acknowledgement and a format of each track.
pub fn format_lasts(_name: &str, _cylinders: u8)
    ensures { (spares : List DriveCounts) (old new : Board) (before after : Outside) (ended : Status)
        → RunsOver (Some (form.Format _name.now _cylinders)) old spares before new after ended
        → CostsRun (whole_format_time _cylinders R500) (whole_format_port_accesses _cylinders R500) old new }
{}

/// A law: a `formatdd NAME CYLINDERS` costs in the same way at most an acknowledgement, a change of the rate, and a
/// format of each track.
pub fn formatdd_lasts(_name: &str, _cylinders: u8)
    ensures { (spares : List DriveCounts) (old new : Board) (before after : Outside) (ended : Status)
        → RunsOver (Some (form.FormatDd _name.now _cylinders)) old spares before new after ended
        → CostsRun (whole_format_time _cylinders R250) (whole_format_port_accesses _cylinders R250) old new }
{}

/// A law: a `verify NAME`, where NAME is the image of a disk, costs in the same way at most an acknowledgement and a
/// read of each record.
pub fn verify_lasts(_name: &str)
    ensures { (spares : List DriveCounts) (old new : Board) (before after : Outside) (ended : Status) (files : Files) (disk : Disk)
        → RunsOver (Some (form.Verify _name.now)) old spares before new after ended
        → before.files ≡ Some files → IsImageOf (Some files) _name.now disk
        → CostsRun (verify_time disk) (verify_port_accesses disk) old new }
{}

/// A law: an `import FLAT NAME`, where FLAT is a flat file, costs in the same way at most an acknowledgement, and for
/// each of 160 tracks a format and a write of each record.
pub fn import_lasts(_flat: &str, _name: &str)
    ensures { (spares : List DriveCounts) (old new : Board) (before after : Outside) (ended : Status) (files : Files) (bytes : List ℕ) (rate : Rate)
        → RunsOver (Some (form.Import _flat.now _name.now)) old spares before new after ended
        → before.files ≡ Some files → IsFlatFile (Some files) _flat.now bytes rate
        → CostsRun (import_time rate) (import_port_accesses rate) old new }
{}

/// A law: an `export NAME FLAT`, where NAME is the image of a disk, costs in the same way at most an acknowledgement,
/// and a read of each record of 160 tracks.
pub fn export_lasts(_name: &str, _flat: &str)
    ensures { (spares : List DriveCounts) (old new : Board) (before after : Outside) (ended : Status) (files : Files) (disk : Disk)
        → RunsOver (Some (form.Export _name.now _flat.now)) old spares before new after ended
        → before.files ≡ Some files → IsImageOf (Some files) _name.now disk
        → CostsRun (export_time disk) (export_port_accesses disk) old new }
{}

/// A law: a new `rescue FROM TO LOG` costs in the same way at most two acknowledgements, a format of each track, and a
/// read and a write of each record. FROM is the image of a disk, and no file LOG is there.
pub fn new_rescue_lasts(_from: &str, _to: &str, _log: &str)
    ensures { (spares : List DriveCounts) (old new : Board) (before after : Outside) (ended : Status) (files : Files) (disk : Disk)
        → RunsOver (Some (form.Rescue _from.now _to.now _log.now)) old spares before new after ended
        → before.files ≡ Some files → IsImageOf (Some files) _from.now disk → file_at files _log.now ≡ None
        → CostsRun (rescue_time disk) (rescue_port_accesses disk) old new }
{}

/// A law: a `rescue FROM TO LOG` that goes on by a log costs in the same way at most two acknowledgements, and a read
/// and a write of each record of the log. FROM and TO are the images of disks.
pub fn further_rescue_lasts(_from: &str, _to: &str, _log: &str)
    ensures { (spares : List DriveCounts) (old new : Board) (before after : Outside) (ended : Status) (files : Files) (disk target : Disk) (lines : List LogLine)
        → RunsOver (Some (form.Rescue _from.now _to.now _log.now)) old spares before new after ended
        → before.files ≡ Some files → IsImageOf (Some files) _from.now disk → IsImageOf (Some files) _to.now target
        → IsLogFound (Some files) _log.now (sectors_at disk.rate) (Some lines)
        → CostsRun (further_rescue_time disk target (length lines)) (further_rescue_port_accesses disk (length lines)) old new }
{}

/// A law on a `play JOB`, where the told file JOB spells these requests, whatever faults come and however it ends. It
/// costs at most its set-up and the sum over its requests. No medium has more than 16,384 words a track, and no request
/// of a job has more than ten attempts.
pub fn job_lasts(_job: &str)
    ensures { (spares : List DriveCounts) (old new : Board) (before after : Outside) (ended : Status) (requests : List Request)
        → RunsOver (Some (form.Play _job.now)) old spares before new after ended → IsJob before.files _job.now requests
        → CostsRun (2 + job_time 16384 10 requests) (22 + job_port_accesses 10 requests) old new }
{}
