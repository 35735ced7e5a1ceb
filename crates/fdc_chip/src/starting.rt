// Data commands. The inner controller is given those that this medium can have. For the others it searches instead.
ghost use Rattle.std.specs.Prelude.{◌≡◌, ◌≤◌, ◌*◌, true};
ghost use Rattle.fdc_chip.specs.Common.{GivesCommand, GivesTransfer, size_of};
ghost use Rattle.fdc_chip.specs.Chips.{chip_state};
ghost use Rattle.fdc_chip.specs.Doing.{Begins, Opens, Remembers, Refuses, BeginsReadId, Formats, FormatsIf, Transfers, TransfersIf, Verifies, ReadsTrack, with_last, with_keys, implies, sectors_of_track, sought_if, is_size, no_key, sectors_to, sectors_verified, verifying, track_begun, absent_key, reading_one};

use crate::chip::Chip;
use crate::code::{MULTITRACK, SKIP, has_bit};
use crate::order::Order;
use crate::settings::Settings;
use crate::stage::{ChipStage, ChipTask, Place, Track};
use drive_model::Inspect;
use fdc_commands::Command;
use fdc_registers::{St1, St2};
use fdc_sequencer::Transfer;
use flop_base::Chrn;

/// READ DATA with MFM.
const READ_DATA: u8 = 0x46;

/// The head and the drive in the second byte of a command.
const UNIT: u8 = 0x07;

/// The head.
const HEAD: u8 = 0x04;

/// EC in the second byte of VERIFY: the command counts its sectors.
pub(crate) const COUNTS: u8 = 0x80;

/// The sector ID of a command that has none.
const NO_KEY: Chrn = Chrn {
    c: 0,
    h: 0,
    r: 0,
    n: 0,
};

/// Whether a field of this medium can have a size code.
pub(crate) fn is_size(n: u8) -> bool
    ensures value { result ≡ is_size n }
    ensures bounds { result ≡ true → (1 ≤ n) × (n ≤ 6) }
{
    1 <= n && n <= 6
}

/// How many sectors a track has from this one on, up to the last.
fn sectors_to(last: u8, r: u8) -> u32
    ensures count { result ≡ sectors_to last r }
    ensures most { result ≤ 256 }
{
    (u32::from(last) + 256 - u32::from(r)) % 256 + 1
}

/// How many bytes this many sector IDs have.
fn bytes_of_keys(sectors: u8) -> u16
    ensures { result ≡ 4 * sectors }
{
    4 * u16::from(sectors)
}

impl Order {
    /// How many sectors a VERIFY verifies.
    fn sectors_verified(self) -> u32
        ensures count { result ≡ sectors_verified self }
        ensures most { result ≤ 512 }
    {
        if has_bit(self.unit, COUNTS) {
            return if self.length == 0 {
                256
            } else {
                u32::from(self.length)
            };
        }
        let here = sectors_to(self.last_sector, self.key.r);
        if has_bit(self.code, MULTITRACK) && !has_bit(self.unit, HEAD) {
            here + sectors_to(self.last_sector, 1)
        } else {
            here
        }
    }

    /// How many bytes a VERIFY verifies.
    fn bytes_verified(self) -> u32
        ensures { result ≡ sectors_verified self * size_of self.key.n }
    {
        let sectors = self.sectors_verified();
        match self.key.n {
            1 => sectors * 256,
            2 => sectors * 512,
            3 => sectors * 1024,
            4 => sectors * 2048,
            5 => sectors * 4096,
            6 => sectors * 8192,
            _ => sectors * 128,
        }
    }

    /// How many sectors a READ TRACK reads.
    fn sectors_of_track(self) -> u16
        ensures { result ≡ sectors_of_track self }
    {
        if self.last_sector == 0 {
            256
        } else {
            u16::from(self.last_sector)
        }
    }

    /// The READ DATA that is executed for a VERIFY.
    fn verifying(self) -> Order
        ensures { result ≡ verifying self }
    {
        Order {
            code: READ_DATA | self.code & (MULTITRACK | SKIP),
            unit: self.unit & UNIT,
            ..self
        }
    }

    /// The READ DATA of one sector, with the gap and length of this command.
    fn reading_one(self, key: Chrn) -> Order
        ensures { result ≡ reading_one key self }
    {
        Order {
            code: READ_DATA,
            key,
            last_sector: key.r,
            ..self
        }
    }
}

impl Track {
    /// A READ TRACK that begins. `seeks` says whether the heads go to its cylinder first.
    fn of(seeks: bool, order: Order) -> Track
        ensures { result ≡ track_begun seeks order }
    {
        Track {
            unit: order.unit,
            key: order.key,
            left: order.sectors_of_track(),
            place: Place::Index,
            counted: false,
            met: false,
            seeks,
            st1: St1(0),
            st2: St2(0),
        }
    }
}

impl<D: Inspect> Chip<D> {
    /// Begins a task: INT falls, and the pending result of its drive is dropped.
    fn open(&mut self, task: ChipTask)
        ensures { Opens task (chip_state D.state self.old) (chip_state D.state self.new) }
    {
        self.stage = ChipStage::Busy { task };
        let unit = self.order.unit;
        self.interrupts.forget(unit);
        self.remember();
    }

    /// Begins a command of this task, for which the inner controller is given this command.
    fn begin(&mut self, task: ChipTask, command: Command)
        ensures { Begins task (GivesCommand command) (chip_state D.state self.old) (chip_state D.state self.new) }
    {
        self.open(task);
        self.behind.give_command(command);
    }

    /// Begins a command of this task, for which the inner controller is given this command of several sectors.
    fn begin_transfer(&mut self, task: ChipTask, transfer: Transfer)
        ensures { Begins task (GivesTransfer transfer) (chip_state D.state self.old) (chip_state D.state self.new) }
    {
        self.open(task);
        self.behind.give_transfer(transfer);
    }

    /// Gives the inner controller again what LOCK kept over a reset.
    fn remember(&mut self)
        ensures { Remembers (chip_state D.state self.old) (chip_state D.state self.new) }
    {
        if !self.settings.forgotten {
            return;
        }
        let Settings {
            options,
            precompensation,
            ..
        } = self.settings;
        self.settings = Settings {
            forgotten: false,
            ..self.settings
        };
        self.configure_behind(options, precompensation);
    }

    /// A command that this medium can't have: the inner controller looks for an address mark instead, as the real chip
    /// would.
    fn refuse(&mut self, key: Chrn, mfm: bool)
        ensures { Refuses key mfm (chip_state D.state self.old) (chip_state D.state self.new) }
    {
        let unit = self.order.unit;
        self.begin(
            ChipTask::Refused { unit, key, mfm },
            Command::ReadId { head_drive: unit },
        );
    }

    /// READ ID.
    pub(crate) fn read_id(&mut self, mfm: bool)
        ensures { BeginsReadId mfm (chip_state D.state self.old) (chip_state D.state self.new) }
    {
        if mfm {
            let unit = self.order.unit;
            self.begin(ChipTask::Sent, Command::ReadId { head_drive: unit });
        } else {
            self.refuse(NO_KEY, false);
        }
    }

    /// Notes what DUMPREG gives of a data command.
    fn note(&mut self, last_sector: u8)
        ensures { chip_state D.state self.new ≡ with_last last_sector (chip_state D.state self.old) }
    {
        self.settings = Settings {
            last_sector,
            ..self.settings
        };
    }

    /// FORMAT TRACK.
    pub(crate) fn format(&mut self, mfm: bool)
        ensures { Formats mfm (chip_state D.state self.old) (chip_state D.state self.new) }
    {
        let Order { unit, key, .. } = self.order;
        self.note(key.h);
        self.keys = bytes_of_keys(key.h);
        if mfm && is_size(key.c) {
            self.begin(
                ChipTask::Sent,
                Command::FormatTrack {
                    head_drive: unit,
                    n: key.c,
                    sc: key.h,
                    gpl: key.r,
                    fill: key.n,
                },
            );
        } else {
            self.refuse(NO_KEY, mfm);
        }
    }

    /// Whether seeks are implied.
    fn implies_seeks(&self) -> bool
        ensures { result ≡ implies (chip_state D.state self.now) }
    {
        self.strapped || self.settings.implies_seeks()
    }

    /// Begins a command of sectors, for which the inner controller is given the one that this order spells.
    pub(crate) fn transfer(&mut self, mfm: bool, task: ChipTask, order: Order)
        ensures { Transfers mfm task order (chip_state D.state self.old) (chip_state D.state self.new) }
    {
        let Order {
            unit,
            key,
            last_sector,
            ..
        } = self.order;
        self.note(last_sector);
        if !mfm || !is_size(key.n) {
            self.refuse(key, mfm);
            return;
        }
        let seeks = self.implies_seeks();
        if seeks {
            self.interrupts.set_cylinder(unit, key.c);
        }
        self.begin_transfer(task, order.transfer(seeks));
    }

    /// VERIFY.
    pub(crate) fn verify(&mut self, mfm: bool)
        ensures { Verifies mfm (chip_state D.state self.old) (chip_state D.state self.new) }
    {
        let order = self.order;
        let left = order.bytes_verified();
        self.transfer(mfm, ChipTask::Verify { left }, order.verifying());
    }

    /// READ TRACK. It begins with a search that ends with the index pulse.
    pub(crate) fn read_track(&mut self, mfm: bool)
        ensures { ReadsTrack mfm (chip_state D.state self.old) (chip_state D.state self.new) }
    {
        let order = self.order;
        let absent = Chrn {
            c: order.key.c,
            h: 0xFF,
            r: 0xFF,
            n: 6,
        };
        let track = Track::of(self.implies_seeks(), order);
        self.transfer(mfm, ChipTask::Track { track }, order.reading_one(absent));
    }
}
