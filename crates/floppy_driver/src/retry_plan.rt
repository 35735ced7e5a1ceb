// How often a driver tries a command, and how it prepares each attempt.
ghost use Rattle.std.specs.Prelude.{◌≡◌, ◌≤◌, ◌↔◌, IsTrue};

/// The number of attempts at a command, until another number is set.
pub const START_TRIES: u8 = 3;

/// What comes before the command of an attempt.
#[derive(Clone, Copy, Debug, PartialEq, Eq)]
pub enum Prepare {
    /// Steps from the cylinder where the heads are known to stand.
    Seek,
    /// Steps outward until track 0 is reached, and then from there.
    RecalibrateAndSeek,
}

/// How to prepare attempt number `attempt`, counted from 1, of `tries`. Steps alone are trusted only if the cylinder is
/// known and a further attempt is left to recalibrate.
pub fn preparation(tries: u8, attempt: u8, known: bool) -> Prepare
    requires some { 1 ≤ tries }
    requires most { tries ≤ 10 }
    requires from_first { 1 ≤ attempt }
    requires to_last { attempt ≤ tries }
    ensures { (result ≡ Prepare.Seek) ↔ ((attempt ≡ 1) × IsTrue known × (2 ≤ tries)) }
{
    if attempt == 1 && known && tries >= 2 {
        Prepare::Seek
    } else {
        Prepare::RecalibrateAndSeek
    }
}
