// The drive of a bay.
ghost use Rattle.std.specs.Prelude.{◌≡◌, ◌||◌};

mod driving;
mod inspecting;
mod saving;

use crate::cable::Pulled;
use crate::map::TrackMap;
use drive_model::{Fault, ScriptDrive};

/// A drive with planned faults that keeps a map of the tracks that were written. While its cable is pulled, no pulse
/// reaches its heads, and no word of a track is heard or written. Its change line is then down until a medium is put in
/// or taken out.
#[derive(Drop)]
pub struct BayDrive {
    inside: ScriptDrive,
    /// A word of the medium was replaced since the medium was put in, or since this sign was last cleared. The drive
    /// within clears its own sign at each write.
    replaced: bool,
    tracks: TrackMap,
    /// None if the cable is in.
    pulled: Option<Pulled>,
}

/// Whether one of the two is true.
fn either(first: bool, second: bool) -> bool
    ensures { result ≡ (first || second) }
{
    first || second
}

impl BayDrive {
    ghost use Rattle.drive_model.specs.Fault.{total_left};
    ghost use Rattle.drive_model.specs.ScriptDrive.{told};
    ghost use Rattle.c_bay_drive.specs.Joined.{with_writes};
    ghost use Rattle.c_bay_drive.specs.Bays.{bay_state, new_in_bay, drive_within, is_attached, drive_in_bay, faults_in_bay, tracks_in_bay, without_tracks, state_replanned, state_with_cable};

    /// A drive with these faults. It is attached, without a medium, at cylinder 0, with its motor off and its change
    /// line set.
    pub fn new(faults: Vec<Fault>) -> BayDrive
        ensures state { bay_state result ≡ new_in_bay (told 0 (total_left faults.items)) }
        ensures faults { faults_in_bay result ≡ faults.items }
    {
        BayDrive {
            inside: ScriptDrive::new(faults),
            replaced: false,
            tracks: TrackMap::new(),
            pulled: None,
        }
    }

    /// Whether the drive's cable is in.
    pub fn is_attached(&self) -> bool
        ensures { result ≡ is_attached self.now }
    {
        self.pulled.is_none()
    }

    /// The drive with its cable put in, or pulled. A cable that is so already stays as it is.
    pub fn with_cable(self, on: bool) -> BayDrive
        ensures is { is_attached result ≡ on }
        ensures drive { drive_in_bay result ≡ drive_in_bay self }
        ensures state { bay_state result ≡ state_with_cable on self }
    {
        let now = Pulled {
            change: false,
            lost: 0,
        };
        let pulled = if on {
            None
        } else {
            Some(self.pulled.unwrap_or(now))
        };
        BayDrive { pulled, ..self }
    }

    /// Plans these faults in place of those that can still come. All else stays, and so does the count of faults.
    pub fn replan(&mut self, faults: Vec<Fault>)
        ensures faults { faults_in_bay self.new ≡ faults.items }
        ensures within { drive_within self.new ≡ record (drive_within self.old) {
          left = told (drive_within self.old).faults (total_left faults.items);
        } }
        ensures state { bay_state self.new ≡ state_replanned faults.items self.old }
    {
        self.inside.replan(faults);
    }

    /// The tracks that were written since this was last asked. The drive forgets them; all else stays.
    pub fn take_tracks(&mut self) -> TrackMap
        ensures taken { result ≡ tracks_in_bay self.old }
        ensures left { self.new ≡ without_tracks self.old }
    {
        std::mem::replace(&mut self.tracks, TrackMap::new())
    }

    /// Adds what another drive reports of writes: whether a word of the medium was replaced, and which tracks were
    /// written. All else stays.
    pub fn join_writes(&mut self, from: &BayDrive)
        ensures { self.new ≡ with_writes from.now self.old }
    {
        self.replaced = either(from.replaced, self.replaced);
        self.tracks.join(&from.tracks);
    }
}
