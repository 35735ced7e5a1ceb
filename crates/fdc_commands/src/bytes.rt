// A command as it comes, byte after byte.
ghost use Rattle.std.specs.Prelude.{◌≡◌, [], ◌∷◌, ◌++◌, slice_index};
ghost use Rattle.std.specs.Option.{option_map_or};
ghost use Rattle.fdc_commands.specs.Table.{row_of, is_begun, answer, kept, IfReady, SizeInRange};
ghost use Rattle.fdc_commands.specs.Table.{whole as whole_command};

mod saving;

use crate::Command;
use crate::command::{LONGEST, parameter_count, spell};
use std::marker::Model;

/// What a byte of a command came to.
#[derive(Clone, Copy, PartialEq, Eq, Debug)]
pub enum Accepted {
    /// The command isn't whole yet.
    More,
    /// The command is whole.
    Ready(Command),
    /// The code isn't in the table, or the size code of the whole command isn't 1 to 6.
    Invalid,
}

/// The bytes so far of a command that has begun. There are none if no command has begun.
#[derive(Drop)]
pub struct CommandBytes {
    bytes: [u8; LONGEST],
    count: usize,
}

impl Model for CommandBytes {
    ghost use Rattle.std.specs.Prelude.{List, ℕ, take, ◌≤◌};

    ghost Value = { List ℕ };

    ghost view = { λ command. take command.count command.bytes };

    ghost invariant = { λ command. command.count ≤ 8 };
}

impl CommandBytes {
    /// No command has begun.
    pub fn new() -> CommandBytes
        ensures { result ≡ [] }
    {
        CommandBytes {
            bytes: [0; LONGEST],
            count: 0,
        }
    }

    /// Whether a command has begun.
    pub fn is_begun(&self) -> bool
        ensures { result ≡ is_begun self.now }
    {
        self.count > 0
    }

    /// Takes the next byte of a command. After `Ready` and after `Invalid` no command has begun.
    pub fn accept(&mut self, byte: u8) -> Accepted
        ensures accepted { result ≡ answer (self.old ++ byte ∷ []) }
        ensures kept { self.new ≡ kept result (self.old ++ byte ∷ []) }
        ensures sized { IfReady result SizeInRange }
    {
        self.bytes[self.count] = byte;
        self.count += 1;
        match parameter_count(self.bytes[0]) {
            Some(parameters) if self.count <= parameters => Accepted::More,
            Some(_) => {
                self.count = 0;
                whole(&self.bytes)
            }
            None => {
                self.count = 0;
                Accepted::Invalid
            }
        }
    }
}

// What the bytes of a whole command come to.
fn whole(bytes: &[u8; LONGEST]) -> Accepted
    ensures accepted { result
        ≡ option_map_or (λ r. whole_command (r.spells bytes.now))
        (row_of (slice_index bytes.now 0)) Accepted.Invalid }
    ensures sized { IfReady result SizeInRange }
{
    match spell(bytes) {
        Some(command) if command.is_sized() => Accepted::Ready(command),
        _ => Accepted::Invalid,
    }
}
