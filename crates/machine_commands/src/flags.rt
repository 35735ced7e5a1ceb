// What a station knows of its bays without asking their drives.
ghost use Rattle.std.specs.Prelude.{◌≡◌, false};
ghost use Rattle.machine_commands.specs.Common.{R500, both, in_bay, with_bay};
ghost use Rattle.machine_commands.specs.Flagged.{with_rate};

use flop_base::{Rate, Two};

/// What is known of a bay.
#[derive(Clone, Copy)]
pub(crate) struct BayFlags {
    /// A medium is in.
    pub loaded: bool,
    /// The bay's rate, R500 where it isn't acknowledged.
    pub rate: Rate,
}

/// What is known of bays 0 and 1.
#[derive(Drop)]
pub(crate) struct Flags {
    bays: Two<BayFlags>,
}

impl Flags {
    /// The flags of two empty bays.
    pub fn empty() -> Flags
        ensures { result.bays ≡ both (record { loaded = false; rate = R500 }) }
    {
        let empty = BayFlags {
            loaded: false,
            rate: Rate::R500,
        };
        Flags {
            bays: Two::new(empty, empty),
        }
    }

    /// The flags of a bay: of the first for 0, of the second for any other number.
    pub fn get(&self, bay: u8) -> BayFlags
        ensures { result ≡ in_bay self.now.bays bay }
    {
        *self.bays.get(bay)
    }

    /// Sets the rate of a bay.
    pub fn set_rate(&mut self, bay: u8, rate: Rate)
        ensures { self.new.bays ≡ with_rate self.old.bays bay rate }
    {
        let flags = self.get(bay);
        self.bays.replace(bay, BayFlags { rate, ..flags });
    }

    /// A medium was put in or taken out: the bay isn't acknowledged any more.
    pub fn exchange_medium(&mut self, bay: u8, loaded: bool)
        ensures { self.new.bays ≡ with_bay self.old.bays bay (record { loaded = loaded; rate = R500 }) }
    {
        let rate = Rate::R500;
        self.bays.replace(bay, BayFlags { loaded, rate });
    }

    /// An empty drive took the place of the drive in the bay.
    pub fn exchange_drive(&mut self, bay: u8)
        ensures { self.new.bays ≡ with_bay self.old.bays bay (record { loaded = false; rate = R500 }) }
    {
        self.exchange_medium(bay, false);
    }
}
