// The bytes of a command that has begun, as they are saved.
use super::CommandBytes;
use crate::command::LONGEST;
use saved_state::{Saved, SavedBytes, Source, load_bytes, save_bytes};

impl Saved for CommandBytes {
    ghost use Rattle.saved_state.specs.Saved.{spelled_bytes};
    ghost use Rattle.fdc_commands.specs.Saving.{IsPart};

    ghost spelled = { spelled_bytes };

    ghost Fits = { IsPart };

    fn save(&self, to: &mut SavedBytes) {
        save_bytes(&self.bytes[..self.count], to);
    }

    fn load(from: &mut Source<'_>) -> CommandBytes {
        let part = load_bytes(from);
        let count = part.len().min(LONGEST - 1);
        let mut bytes = [0; LONGEST];
        bytes[..count].copy_from_slice(&part[..count]);
        CommandBytes { bytes, count }
    }
}
