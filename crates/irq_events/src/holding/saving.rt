// A request and its holds as bytes.
use super::{DmaRequest, Holding};
use crate::queues::save_bytes_left;
use flop_base::NoMemory;
use saved_state::{Saved, SavedBytes, SavedWhole, Source, load_bytes};
use std::alloc::Global;
use std::collections::VecDeque;

impl Saved for DmaRequest {
    ghost use Rattle.std.specs.Prelude.{⊤};
    ghost use Rattle.irq_events.specs.PaceSaving.{spelled_request};

    ghost spelled = { spelled_request };

    ghost Fits = { λ _. ⊤ };

    fn save(&self, to: &mut SavedBytes) {
        match *self {
            DmaRequest::Low => to.byte(0),
            DmaRequest::High { left } => {
                to.byte(1);
                left.save(to);
            }
        }
    }

    fn load(from: &mut Source<'_>) -> DmaRequest {
        if from.byte() == 1 {
            DmaRequest::High {
                left: u8::load(from),
            }
        } else {
            DmaRequest::Low
        }
    }
}

impl SavedWhole for Holding {
    ghost use Rattle.std.specs.Prelude.{⊤};
    ghost use Rattle.irq_events.specs.PaceSaving.{spelled_holds};

    ghost spelled = { spelled_holds };

    ghost Fits = { λ _. ⊤ };

    fn save(&self, _alloc: Global, to: &mut SavedBytes) {
        save_bytes_left(&self.entries, to);
        self.request.save(to);
        self.stalls.save(to);
    }

    fn load(alloc: Global, from: &mut Source<'_>) -> Result<Holding, NoMemory> {
        let entries = VecDeque::from_vec(Vec::from_slice(alloc, load_bytes(from))?);
        let request = DmaRequest::load(from);
        let stalls = u64::load(from);
        Ok(Holding {
            entries,
            request,
            stalls,
        })
    }
}
