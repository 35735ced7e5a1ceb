// A channel as bytes.
use super::Dma;
use saved_state::{Saved, SavedBytes, Source};

impl Saved for Dma {
    ghost use Rattle.std.specs.Prelude.{⊤};
    ghost use Rattle.dma_8237.specs.Saving.{spelled_channel};

    ghost spelled = { spelled_channel };

    ghost Fits = { λ _. ⊤ };

    fn save(&self, to: &mut SavedBytes) {
        self.base_address.save(to);
        self.address.save(to);
        self.base_count.save(to);
        self.count.save(to);
        self.high_byte_next.save(to);
        self.command.save(to);
        self.mode.save(to);
        self.masked.save(to);
        self.terminal_count.save(to);
        self.page.save(to);
    }

    fn load(from: &mut Source<'_>) -> Dma {
        let base_address = u16::load(from);
        let address = u16::load(from);
        let base_count = u16::load(from);
        let count = u16::load(from);
        let high_byte_next = bool::load(from);
        let command = u8::load(from);
        let mode = u8::load(from);
        let masked = bool::load(from);
        let terminal_count = bool::load(from);
        let page = u8::load(from);
        Dma {
            base_address,
            address,
            base_count,
            count,
            high_byte_next,
            command,
            mode,
            masked,
            terminal_count,
            page,
        }
    }
}
