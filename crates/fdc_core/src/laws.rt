// What the results of the commands mean. The bodies are empty: the contracts say what follows from what is known of a
// command.
ghost use Rattle.std.specs.Prelude.{◌≡◌, ℕ, Bool, false, Some};
ghost use Rattle.fdc_core.specs.Common.{DriveState, Chrn, IsSizeCode, IsPlain, Past, Sent, Numbers};
ghost use Rattle.fdc_core.specs.Drives.Hearing.{Outset, track_heard};
ghost use Rattle.fdc_core.specs.Heard.{MayRead, MayReadId};
ghost use Rattle.fdc_core.specs.Meaning.{ReadTells, ReadGives, IdTells, Paced};
ghost use Rattle.fdc_core.specs.Ports.{Gives, value_read, after_read};
ghost use Rattle.fdc_core.specs.declared.controller.Lines.{Lines};
ghost use Rattle.fdc_core.specs.Quiet.{HasSingle, HearsWhole, IsCertain, IsCertainOf};
ghost use Rattle.fdc_core.specs.State.{asks};
ghost use Rattle.fdc_core.specs.Tellings.{WritesWindow, WriteTells, LaysTrack, FormatTells};
ghost use Rattle.fdc_core.specs.Waiting.{Feeds, CanWait};
ghost use Rattle.fdc_core.specs.Written.{MayWrite, MayFormat};
ghost use Rattle.fdc_core.specs.declared.controller.Fdc.{Fdc};

/// What the results of a READ DATA say of the words heard and of the bytes given.
pub fn read_data_tells()
    ensures { (past : Past) (sent : Sent) (fdc : Fdc) → IsSizeCode sent.key.n → MayRead past sent fdc → ReadTells past sent fdc }
{}

/// Whatever a READ DATA gives, or still holds, is of a data field of the key.
pub fn read_data_gives_the_field()
    ensures { (past : Past) (sent : Sent) (fdc : Fdc) → MayRead past sent fdc → ReadGives past sent fdc }
{}

/// What the results of a READ ID say of the words heard.
pub fn read_id_tells()
    ensures { (past : Past) (sent : ℕ) (fdc : Fdc) → MayReadId past sent fdc → IdTells past sent fdc }
{}

/// How long a READ DATA and a READ ID listen.
pub fn listening_is_paced()
    ensures reads { (past : Past) (sent : Sent) (fdc : Fdc) → MayRead past sent fdc → Paced past fdc }
    ensures identifies { (past : Past) (sent : ℕ) (fdc : Fdc) → MayReadId past sent fdc → Paced past fdc }
{}

/// Whatever a WRITE DATA or WRITE DELETED wrote is of the window of its sector.
pub fn write_writes_the_window()
    ensures { (past : Past) (sent : Sent) (deleted : Bool) (fdc : Fdc) → MayWrite past sent deleted fdc → WritesWindow past sent deleted }
{}

/// What the results of a WRITE DATA or WRITE DELETED say of the words heard and written.
pub fn write_tells()
    ensures { (past : Past) (sent : Sent) (deleted : Bool) (fdc : Fdc) → MayWrite past sent deleted fdc → WriteTells past sent deleted fdc }
{}

/// Whatever a FORMAT wrote is of the layout of its keys.
pub fn format_lays_the_track()
    ensures { (past : Past) (sent : ℕ) (numbers : Numbers) (fdc : Fdc) → MayFormat past sent numbers fdc → LaysTrack past numbers }
{}

/// What the results of a FORMAT say of the words written.
pub fn format_tells()
    ensures { (past : Past) (sent : ℕ) (numbers : Numbers) (fdc : Fdc) → MayFormat past sent numbers fdc → FormatTells past sent numbers fdc }
{}

/// While DRQ is low the controller can wait nine device steps.
pub fn quiet_request_waits()
    ensures { (slack : ℕ) (fdc : Fdc) → Feeds fdc → CanWait slack fdc → asks fdc ≡ false → CanWait 9 fdc }
{}

/// What has to be known for `Fdc::quiet_ahead`, of a command that has heard the words of a track: the track is Plain, and
/// for a READ DATA it has the sector ID at most once.
pub fn words_ahead_are_of_the_track()
    ensures plain { (outset : Outset) (past : Past) (drive : DriveState) → HearsWhole outset past drive → drive.left ≡ Some 0
        → IsPlain (track_heard outset) → IsCertain outset.head past.seen drive }
    ensures single { (outset : Outset) (past : Past) (drive : DriveState) (key : Chrn) → HearsWhole outset past drive
        → HasSingle key (track_heard outset) → IsCertainOf key outset.head past.seen drive }
{}

/// A read of the data port in the result phase gives the results byte by byte.
pub fn results_are_given_in_order()
    ensures { (port : ℕ) (lines : Lines) (fdc : Fdc) → Gives port fdc (value_read port lines fdc) (after_read port fdc) }
{}
