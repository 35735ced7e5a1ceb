// The bytes of a command as they are sent.
ghost use Rattle.std.specs.Prelude.{◌≡◌, ◌≤◌, length};
ghost use Rattle.fdc_commands.specs.Spelled.{spelled, spelled_sector};

use crate::Command;
use crate::codes::{
    CONFIGURE, FORMAT_TRACK, READ_DATA, READ_ID, RECALIBRATE, SEEK, SENSE_DRIVE, SENSE_INTERRUPT,
    SPECIFY, VERSION, WRITE_DATA, WRITE_DELETED,
};
use crate::command::LONGEST;
use flop_base::Chrn;
use std::marker::Model;

/// The bytes of a command, its code first.
#[derive(Drop)]
pub struct SpelledCommand {
    bytes: [u8; LONGEST],
    count: usize,
}

impl Model for SpelledCommand {
    ghost use Rattle.std.specs.Prelude.{List, ℕ, take, ◌≤◌};

    ghost Value = { List ℕ };

    ghost view = { λ command. take command.count command.bytes };

    ghost invariant = { λ command. command.count ≤ 9 };
}

impl SpelledCommand {
    /// A command with these bytes.
    fn of(given: &[u8]) -> SpelledCommand
        requires { length given.now ≤ 9 }
        ensures { result ≡ given.now }
    {
        let count = given.len();
        let mut bytes = [0; LONGEST];
        bytes[..count].copy_from_slice(given);
        SpelledCommand { bytes, count }
    }

    /// The bytes of a command of one sector.
    fn of_sector(code: u8, head_drive: u8, key: Chrn, eot: u8, gpl: u8, dtl: u8) -> SpelledCommand
        ensures { result ≡ spelled_sector code head_drive key eot gpl dtl }
    {
        SpelledCommand::of(&[code, head_drive, key.c, key.h, key.r, key.n, eot, gpl, dtl])
    }

    /// The bytes as a slice.
    pub fn as_slice(&self) -> &[u8]
        ensures { result.now ≡ self.now }
    {
        &self.bytes[..self.count]
    }
}

impl Command {
    /// The command's bytes as they are sent: its code, and then each field as it is.
    pub fn bytes(self) -> SpelledCommand
        ensures bytes { result ≡ spelled self }
    {
        match self {
            Command::Specify { srt_hut, hlt_nd } => SpelledCommand::of(&[SPECIFY, srt_hut, hlt_nd]),
            Command::SenseDrive { head_drive } => SpelledCommand::of(&[SENSE_DRIVE, head_drive]),
            Command::Recalibrate { drive } => SpelledCommand::of(&[RECALIBRATE, drive]),
            Command::SenseInterrupt => SpelledCommand::of(&[SENSE_INTERRUPT]),
            Command::Seek { head_drive, ncn } => SpelledCommand::of(&[SEEK, head_drive, ncn]),
            Command::Version => SpelledCommand::of(&[VERSION]),
            Command::Configure {
                zero,
                options,
                pretrk,
            } => SpelledCommand::of(&[CONFIGURE, zero, options, pretrk]),
            Command::ReadId { head_drive } => SpelledCommand::of(&[READ_ID, head_drive]),
            Command::ReadData {
                head_drive,
                key,
                eot,
                gpl,
                dtl,
            } => SpelledCommand::of_sector(READ_DATA, head_drive, key, eot, gpl, dtl),
            Command::WriteData {
                head_drive,
                key,
                eot,
                gpl,
                dtl,
            } => SpelledCommand::of_sector(WRITE_DATA, head_drive, key, eot, gpl, dtl),
            Command::WriteDeleted {
                head_drive,
                key,
                eot,
                gpl,
                dtl,
            } => SpelledCommand::of_sector(WRITE_DELETED, head_drive, key, eot, gpl, dtl),
            Command::FormatTrack {
                head_drive,
                n,
                sc,
                gpl,
                fill,
            } => SpelledCommand::of(&[FORMAT_TRACK, head_drive, n, sc, gpl, fill]),
        }
    }
}
