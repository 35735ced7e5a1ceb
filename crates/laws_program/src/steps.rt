// What each step of a run may do.
ghost use Rattle.std.specs.Prelude.{List, Option, Some};
ghost use Rattle.laws_program.specs.Common.{Files, Status, DriveCounts, Board, State, Taken, Run, Outside, Form, RunsOver};
ghost use Rattle.laws_program.specs.Steps.{EachStep, KeepsGuarded, ReadsField, WritesField, KeepsOtherFields, FormatsTrack, TellsCause, SendsFew};

/// A law on each step of a run: the medium of a bay stays as it is if the bay isn't acknowledged, or if its medium is
/// protected. The exception is a step that exchanged it. The request of such a step puts a medium into that bay, takes
/// one out, or exchanges its drive, and wasn't refused.
pub fn steps_keep_guarded_media()
    ensures { (old new : State) (told after : Option Files) (course : List Taken)
        → Run old told course new after → EachStep KeepsGuarded old course }
{}

/// A law on each step of a run: a read that was done gave an intact field of its sector ID on the disk in its bay.
/// `IsRead` says when this is the field of the sector, and on the track of its cylinder. Each read, done or refused,
/// sent at most as many data commands as attempts are set, and took an interrupt for each.
pub fn steps_read_fields()
    ensures { (old new : State) (told after : Option Files) (course : List Taken)
        → Run old told course new after → EachStep ReadsField old course }
{}

/// A law on each step of a run: a write, done or refused, changed the medium in its bay by no more changes than
/// attempts are set. Each change wrote the window after an address field of the sector ID, or the beginning of that
/// window. If the write was done, an intact field of the sector ID has the mark and the content.
pub fn steps_write_fields()
    ensures { (old new : State) (told after : Option Files) (course : List Taken)
        → Run old told course new after → EachStep WritesField old course }
{}

/// A law on each step of a run: a write to a regular disk, done or refused.
///
/// If the write met no address field of its sector ID, or didn't reach the drive, the disk is as it was. Else there is
/// a premise: nothing disturbed the write, or no address mark could come up in a write that stopped short. Then the
/// disk stays regular, and all entries of its map stay, except that of the sector ID. If the write was done, that entry
/// has the mark and the content, provided that the drive had at most one fault, or the field has no second data mark.
pub fn steps_keep_other_fields()
    ensures { (old new : State) (told after : Option Files) (course : List Taken)
        → Run old told course new after → EachStep KeepsOtherFields old course }
{}

/// A law on each step of a run: a format, done or refused, changed the medium in its bay by no more layouts than
/// attempts are set. Each layout laid the first words of the standard format on a track of its head. If the drive had
/// no fault, this was the track of its cylinder; and if the format was then done, that track is formatted.
pub fn steps_format_tracks()
    ensures { (old new : State) (told after : Option Files) (course : List Taken)
        → Run old told course new after → EachStep FormatsTrack old course }
{}

/// A law on each step of a run. If lines of the order of refusals apply to a request, it was refused with the first of
/// them. Then nothing changed, and no data command was sent. Any other refusal is the drive's, and has its cause: it is
/// of a read, a write, a format or an acknowledgement. All other requests were done.
pub fn steps_tell_causes()
    ensures { (old new : State) (told after : Option Files) (course : List Taken)
        → Run old told course new after → EachStep TellsCause old course }
{}

/// A law on each step of a run: done or refused, it sent no more data commands than its request may, and took an
/// interrupt for each. For each attempt a read may send one, a write two, and a format one more than a track has
/// sectors. An acknowledgement may send six, and any other request none.
pub fn steps_send_few_commands()
    ensures { (old new : State) (told after : Option Files) (course : List Taken)
        → Run old told course new after → EachStep SendsFew old course }
{}

/// A law: the course of each subcommand (form) over a machine is a run, from the session that was set up and the files
/// as they were. So the laws above hold of its steps.
pub fn course_is_a_run()
    ensures { (asked : Form) (spares : List DriveCounts) (old new : Board) (before after : Outside) (ended : Status)
        (over : RunsOver (Some asked) old spares before new after ended)
        → (mid : State) × (files : Option Files) × Run over.start before.files over.runs.course mid files }
{}
