// How long a track of a medium is, all along a run.
ghost use Rattle.std.specs.Prelude.{All, ℕ, List, Option, Some};
ghost use Rattle.laws_commands.specs.Common.{Files, Run, Taken, requests_of, State};
ghost use Rattle.sector_model.specs.Times.{AreWithin, IsWithin};
ghost use Rattle.laws_commands.specs.Times.{ArePutShort, SetsAtMost};

/// A law: all along a run no medium has more than 16,384 words a track, and no request has more than ten attempts. The
/// files have to be told, the first station has to be so, and no request may set more attempts.
///
/// With other numbers the same holds if each request of the course puts in short tracks alone, whatever files are told.
#[tactic(auto, using(crate::proofs::Turns::course_short, crate::proofs::Turns::told_short))]
pub fn media_have_short_tracks()
    ensures told { (old new : State) (files : Files) (after : Option Files) (course : List Taken) → Run old (Some files) course new after
        → All (SetsAtMost 10) (requests_of course) → IsWithin 16384 10 old.station → AreWithin 16384 10 old.station course }
    ensures within { (turn tries : ℕ) (old new : State) (told after : Option Files) (course : List Taken) → Run old told course new after
        → ArePutShort turn tries course → IsWithin turn tries old.station → AreWithin turn tries old.station course }
{}
