// What keeps a command from making its file.
ghost use Rattle.std.specs.Prelude.{◌≡◌};
ghost use Rattle.archive_commands.specs.declared.halt.Halt.TheVariants as halt;
ghost use Rattle.archive_commands.specs.Halts.{out_of_memory, of_imd, of_remaster};

use flop_base::NoMemory;
use imagedisk::ImdError;
use remaster::RemasterError;
use sector_model::Stop;

/// What keeps a command from making its file.
#[derive(Drop)]
pub enum Halt {
    /// The first track that doesn't fit the other format.
    Unfit { c: u8, h: u8 },
    /// A file couldn't be loaded or stored.
    Stopped(Stop),
}

impl From<Stop> for Halt {
    ghost from_gives = { λ stop h. h ≡ halt.Stopped stop };

    fn from(stop: Stop) -> Halt {
        Halt::Stopped(stop)
    }
}

impl From<NoMemory> for Halt {
    ghost from_gives = { λ _ h. h ≡ out_of_memory };

    fn from(_: NoMemory) -> Halt {
        Halt::Stopped(Stop::NoMemory)
    }
}

impl From<ImdError> for Halt {
    ghost from_gives = { λ error h. h ≡ of_imd error };

    fn from(error: ImdError) -> Halt {
        match error {
            ImdError::Unfit { c, h } => Halt::Unfit { c, h },
            ImdError::NoMemory => Halt::Stopped(Stop::NoMemory),
        }
    }
}

impl From<RemasterError> for Halt {
    ghost from_gives = { λ error h. h ≡ of_remaster error };

    fn from(error: RemasterError) -> Halt {
        match error {
            RemasterError::Unfit { c, h } => Halt::Unfit { c, h },
            RemasterError::NoMemory => Halt::Stopped(Stop::NoMemory),
        }
    }
}
