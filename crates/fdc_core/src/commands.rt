// The commands, once their last byte came.
ghost use Rattle.std.specs.Prelude.{◌≡◌};
ghost use Rattle.fdc_core.specs.Common.{IsSizeCode, seek_bits, SizeInRange, IsReadingId, IsReadingData, IsWritingData, IsFormattingTrack};
ghost use Rattle.fdc_core.specs.Commands.{answered, status_of_lines, sensing, configured, begun, BeginsTask, BeginsAsking, Begins, ObeysAtRest, Obeys, Takes};

use crate::controller::{Fdc, Lines};
use fdc_commands::{Accepted, Command};
use fdc_phases::{
    Answer, Execution, Phase, Task, formatting_track, reading_data, reading_id, writing_data,
};
use fdc_registers::{Flags, St3};
use flop_base::Chrn;

/// The only result byte of a command that is invalid.
pub(crate) const INVALID: u8 = 0x80;

/// The result byte of VERSION: an enhanced controller.
const ENHANCED: u8 = 0x90;

/// ND, in the last byte of SPECIFY.
const NON_DMA: u8 = 0x01;

/// What CONFIGURE turns off, and the threshold less one.
const FIFO_OFF: u8 = 0x20;

const POLLING_OFF: u8 = 0x10;

const THRESHOLD: u8 = 0x0F;

/// Status register 3: the lines of the selected drive, with the head and the drive as they were sent.
pub(crate) fn drive_status(lines: Lines, head_drive: u8) -> u8
    ensures { result ≡ status_of_lines lines head_drive }
{
    let place = St3(head_drive & 0x07).union(St3::ALWAYS_ONE);
    let placed = if lines.track0 {
        place.union(St3::TRACK_0)
    } else {
        place
    };
    let told = if lines.protected {
        placed.union(St3::PROTECTED)
    } else {
        placed
    };
    told.bits()
}

impl Fdc {
    /// Takes a byte of a command.
    pub(crate) fn take_command_byte(&mut self, byte: u8, lines: Lines)
        ensures { Takes byte lines self.old self.new }
    {
        match self.command.accept(byte) {
            Accepted::More => {}
            Accepted::Ready(command) => self.obey(command, lines),
            Accepted::Invalid => self.answer(INVALID, None),
        }
    }

    /// The result phase of a command without execution begins.
    pub(crate) fn answer(&mut self, next: u8, last: Option<u8>)
        ensures { self.new ≡ answered next last self.old }
    {
        self.phase = Phase::Result {
            answer: Answer::Short { next, last },
        };
    }

    /// Does a command. While a seek bit is set, only SENSE INTERRUPT is valid.
    pub(crate) fn obey(&mut self, command: Command, lines: Lines)
        requires { SizeInRange command }
        ensures { Obeys command lines self.old self.new }
    {
        match command {
            Command::SenseInterrupt => self.sense_interrupt(),
            _ => {
                if self.seeks.bits() == 0 {
                    self.obey_at_rest(command, lines);
                } else {
                    self.answer(INVALID, None);
                }
            }
        }
    }

    /// Does a command while no seek bit is set.
    fn obey_at_rest(&mut self, command: Command, lines: Lines)
        requires sized { SizeInRange command }
        requires rest { seek_bits self.old.seeks ≡ 0 }
        ensures { ObeysAtRest command lines self.old self.new }
    {
        match command {
            Command::Specify { hlt_nd, .. } => self.non_dma = hlt_nd & NON_DMA != 0,
            Command::SenseDrive { head_drive } => {
                self.answer(drive_status(lines, head_drive), None);
            }
            Command::Recalibrate { drive } => self.seeks.recalibrate(drive % 4),
            Command::SenseInterrupt => self.sense_interrupt(),
            Command::Seek { head_drive, ncn } => self.seeks.seek(head_drive % 4, ncn),
            Command::Version => self.answer(ENHANCED, None),
            Command::Configure { options, .. } => self.configure(options),
            _ => self.begin_execution(command),
        }
    }

    /// Gives the pending result of the lowest drive, and lets INT fall; 80 where none is pending.
    fn sense_interrupt(&mut self)
        ensures { self.new ≡ sensing self.old }
    {
        match self.seeks.sense() {
            Some((status, cylinder)) => {
                self.interrupt = false;
                self.answer(status, Some(cylinder));
            }
            None => self.answer(INVALID, None),
        }
    }

    /// Sets the FIFO's mode and polling. A poll that is still to come is lost where polling is turned off.
    fn configure(&mut self, options: u8)
        ensures { self.new ≡ configured options self.old }
    {
        self.fifo
            .set(options & FIFO_OFF == 0, (options & THRESHOLD) + 1);
        if options & POLLING_OFF == 0 {
            self.polling = true;
        } else {
            self.polling = false;
            self.poll_due = false;
        }
    }

    /// Begins a data command, which needs DMA.
    fn begin_execution(&mut self, command: Command)
        requires { SizeInRange command }
        ensures { Begins command self.old self.new }
    {
        if self.non_dma {
            self.answer(INVALID, None);
            return;
        }
        match command {
            Command::ReadId { head_drive } => self.begin_id(head_drive),
            Command::ReadData {
                head_drive,
                key,
                eot,
                ..
            } => self.begin_reading(head_drive, key, eot),
            Command::WriteData {
                head_drive,
                key,
                eot,
                ..
            } => self.begin_writing(head_drive, key, eot, false),
            Command::WriteDeleted {
                head_drive,
                key,
                eot,
                ..
            } => self.begin_writing(head_drive, key, eot, true),
            Command::FormatTrack {
                head_drive,
                n,
                sc,
                gpl,
                fill,
            } => self.begin_formatting(head_drive, n, sc, gpl, fill),
            _ => self.answer(INVALID, None),
        }
    }

    /// READ ID begins.
    fn begin_id(&mut self, head_drive: u8)
        ensures { BeginsTask head_drive (IsReadingId head_drive) self.old self.new }
    {
        let task = reading_id();
        self.begin(head_drive, task);
    }

    /// READ DATA begins.
    fn begin_reading(&mut self, head_drive: u8, key: Chrn, last_sector: u8)
        requires { IsSizeCode key.n }
        ensures { BeginsTask head_drive (IsReadingData (record { head_drive = head_drive; key = key; last_sector = last_sector })) self.old self.new }
    {
        let task = reading_data(key, last_sector);
        self.begin(head_drive, task);
    }

    /// WRITE DATA or WRITE DELETED begins, and asks for bytes.
    fn begin_writing(&mut self, head_drive: u8, key: Chrn, last_sector: u8, deleted: bool)
        requires { IsSizeCode key.n }
        ensures { BeginsAsking head_drive (IsWritingData (record { head_drive = head_drive; key = key; last_sector = last_sector }) deleted) self.old self.new }
    {
        let task = writing_data(key, last_sector, deleted);
        self.begin(head_drive, task);
        self.ask();
    }

    /// FORMAT TRACK begins, and asks for bytes.
    fn begin_formatting(&mut self, head_drive: u8, n: u8, sectors: u8, gap3: u8, fill: u8)
        requires { IsSizeCode n }
        ensures { BeginsAsking head_drive (IsFormattingTrack head_drive (record { n = n; sectors = sectors; gap3 = gap3; fill = fill })) self.old self.new }
    {
        let task = formatting_track(n, sectors, gap3, fill);
        self.begin(head_drive, task);
        self.ask();
    }

    /// The execution of a data command begins.
    pub(crate) fn begin(&mut self, head_drive: u8, task: Task)
        ensures { self.new ≡ begun head_drive task self.old }
    {
        self.data_commands = self.data_commands.saturating_add(1);
        self.asking = false;
        self.fifo.clear();
        self.phase = Phase::Execute {
            execution: Execution {
                head_drive,
                steps: 0,
                task,
            },
        };
    }
}
