// Numbers and truth values.
use crate::saved::Saved;
use crate::saved_bytes::SavedBytes;
use crate::source::Source;

impl Saved for u8 {
    ghost use Rattle.std.specs.Prelude.{⊤};
    ghost use Rattle.saved_state.specs.Saved.{spelled_byte};

    ghost spelled = { spelled_byte };

    ghost Fits = { λ _. ⊤ };

    #[tactic(auto, unfolding(crate::specs::Saved::spelled_byte))]
    fn save(&self, to: &mut SavedBytes) {
        to.byte(*self);
    }

    #[tactic(auto, unfolding(crate::specs::Saved::spelled_byte))]
    fn load(from: &mut Source<'_>) -> u8 {
        from.byte()
    }
}

impl Saved for bool {
    ghost use Rattle.std.specs.Prelude.{⊤};
    ghost use Rattle.saved_state.specs.Saved.{spelled_flag};

    ghost spelled = { spelled_flag };

    ghost Fits = { λ _. ⊤ };

    #[tactic(auto, unfolding(crate::specs::Saved::spelled_flag))]
    fn save(&self, to: &mut SavedBytes) {
        to.byte(if *self { 1 } else { 0 });
    }

    #[tactic(auto, unfolding(crate::specs::Saved::spelled_flag))]
    fn load(from: &mut Source<'_>) -> bool {
        from.byte() == 1
    }
}

impl Saved for u16 {
    ghost use Rattle.std.specs.Prelude.{⊤};
    ghost use Rattle.saved_state.specs.Saved.{spelled_word};

    ghost spelled = { spelled_word };

    ghost Fits = { λ _. ⊤ };

    #[tactic(auto, unfolding(crate::specs::Saved::spelled_word))]
    fn save(&self, to: &mut SavedBytes) {
        to.byte((*self % 256) as u8);
        to.byte((*self / 256) as u8);
    }

    #[tactic(auto, unfolding(crate::specs::Saved::spelled_word))]
    fn load(from: &mut Source<'_>) -> u16 {
        let low = from.byte();
        let high = from.byte();
        u16::from(low) + 256 * u16::from(high)
    }
}

impl Saved for u32 {
    ghost use Rattle.std.specs.Prelude.{⊤};
    ghost use Rattle.saved_state.specs.Saved.{spelled_double};

    ghost spelled = { spelled_double };

    ghost Fits = { λ _. ⊤ };

    #[tactic(auto, unfolding(crate::specs::Saved::spelled_double))]
    fn save(&self, to: &mut SavedBytes) {
        ((*self % 0x1_0000) as u16).save(to);
        ((*self / 0x1_0000) as u16).save(to);
    }

    #[tactic(auto, unfolding(crate::specs::Saved::spelled_double))]
    fn load(from: &mut Source<'_>) -> u32 {
        let low = u16::load(from);
        let high = u16::load(from);
        u32::from(low) + 0x1_0000 * u32::from(high)
    }
}

impl Saved for u64 {
    ghost use Rattle.std.specs.Prelude.{⊤};
    ghost use Rattle.saved_state.specs.Saved.{spelled_count};

    ghost spelled = { spelled_count };

    ghost Fits = { λ _. ⊤ };

    #[tactic(auto, unfolding(crate::specs::Saved::spelled_count))]
    fn save(&self, to: &mut SavedBytes) {
        ((*self % 0x1_0000_0000) as u32).save(to);
        ((*self / 0x1_0000_0000) as u32).save(to);
    }

    #[tactic(auto, unfolding(crate::specs::Saved::spelled_count))]
    fn load(from: &mut Source<'_>) -> u64 {
        let low = u32::load(from);
        let high = u32::load(from);
        u64::from(low) + 0x1_0000_0000 * u64::from(high)
    }
}

impl Saved for u128 {
    ghost use Rattle.std.specs.Prelude.{⊤};
    ghost use Rattle.saved_state.specs.Saved.{spelled_cells};

    ghost spelled = { spelled_cells };

    ghost Fits = { λ _. ⊤ };

    #[tactic(auto, unfolding(crate::specs::Saved::spelled_cells))]
    fn save(&self, to: &mut SavedBytes) {
        ((*self % 0x1_0000_0000_0000_0000) as u64).save(to);
        ((*self / 0x1_0000_0000_0000_0000) as u64).save(to);
    }

    #[tactic(auto, unfolding(crate::specs::Saved::spelled_cells))]
    fn load(from: &mut Source<'_>) -> u128 {
        let low = u64::load(from);
        let high = u64::load(from);
        u128::from(low) + 0x1_0000_0000_0000_0000 * u128::from(high)
    }
}

impl Saved for usize {
    ghost use Rattle.std.specs.Prelude.{⊤};
    ghost use Rattle.saved_state.specs.Saved.{spelled_count};

    ghost spelled = { spelled_count };

    ghost Fits = { λ _. ⊤ };

    fn save(&self, to: &mut SavedBytes) {
        (*self as u64).save(to);
    }

    fn load(from: &mut Source<'_>) -> usize {
        u64::load(from) as usize
    }
}
