// The drive of a bay as bytes.
use super::BayDrive;
use crate::cable::load_cable;
use crate::map::TrackMap;
use drive_model::ScriptDrive;
use flop_base::NoMemory;
use saved_state::{Saved, SavedBytes, SavedWhole, Source};
use std::alloc::Global;

impl SavedWhole for BayDrive {
    ghost use Rattle.c_bay_drive.specs.Saving.{spelled_bay, BayFits};

    ghost spelled = { spelled_bay };

    ghost Fits = { BayFits };

    fn save(&self, alloc: Global, to: &mut SavedBytes) {
        self.is_attached().save(to);
        self.inside.save(alloc, to);
        self.replaced.save(to);
        self.tracks.save(to);
        if let Some(pulled) = self.pulled {
            pulled.save(to);
        }
    }

    fn load(alloc: Global, from: &mut Source<'_>) -> Result<BayDrive, NoMemory> {
        let attached = bool::load(from);
        let inside = ScriptDrive::load(alloc, from)?;
        let replaced = bool::load(from);
        let tracks = TrackMap::load(from);
        let pulled = load_cable(attached, from);
        Ok(BayDrive {
            inside,
            replaced,
            tracks,
            pulled,
        })
    }
}
