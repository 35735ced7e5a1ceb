// What a whole command does.
ghost use Rattle.std.specs.Prelude.{◌≡◌};
ghost use Rattle.fdc_chip.specs.Chips.{chip_state};
ghost use Rattle.fdc_chip.specs.Doing.{GivesOn, is_told, drained_one, drained, moves_heads, is_moving, told, ready, sensing, specified, configured, configuring, dumped, locked, made_perpendicular, relative_target, drive_sensed, Moves, Obeys, AttendsTo, Attends, needs_heads};
ghost use Rattle.fdc_chip.specs.Interrupts.{cylinder_of};

use crate::answer::{ChipAnswer, Registers};
use crate::chip::Chip;
use crate::code::ChipOpcode;
use crate::order::Order;
use crate::pace::PacedSeek;
use crate::settings::Settings;
use crate::stage::{ChipStage, ChipTask};
use drive_model::Inspect;
use fdc_commands::Command;
use fdc_registers::{Flags, St0};

/// MSR when the port is read.
pub(crate) const STATUS: u16 = 0x3F4;

/// The only result byte of a command that is invalid.
const INVALID: u8 = 0x80;

/// The result byte of VERSION: an enhanced controller.
const ENHANCED: u8 = 0x90;

/// The seek bits of MSR.
const SEEKING: u8 = 0x0F;

/// LOCK in the byte with which the command answers.
const LOCKED: u8 = 0x10;

/// All of CONFIGURE's options but EIS.
const WITHOUT_IMPLIED_SEEK: u8 = 0x3F;

impl ChipOpcode {
    /// Whether the command needs the inner controller, which takes no command while heads move.
    pub(crate) fn needs_heads(self) -> bool
        ensures { result ≡ needs_heads self }
    {
        match self {
            ChipOpcode::Specify
            | ChipOpcode::SenseInterrupt
            | ChipOpcode::Version
            | ChipOpcode::Perpendicular
            | ChipOpcode::DumpRegisters
            | ChipOpcode::Lock { .. } => false,
            _ => true,
        }
    }
}

/// Where a RELATIVE SEEK goes.
fn relative_target(inward: bool, cylinder: u8, count: u8) -> u8
    ensures { result ≡ relative_target inward cylinder count }
{
    if inward {
        cylinder.saturating_add(count)
    } else {
        cylinder.saturating_sub(count)
    }
}

impl<D: Inspect> Chip<D> {
    /// Gives a command to the inner controller, if it takes one.
    pub(crate) fn command(&mut self, command: Command)
        ensures { GivesOn command (chip_state D.state self.old) (chip_state D.state self.new) }
    {
        self.behind.give_command(command);
    }

    /// Lets the host read this answer.
    pub(crate) fn tell(&mut self, answer: ChipAnswer)
        ensures { chip_state D.state self.new ≡ told answer (chip_state D.state self.old) }
    {
        self.stage = ChipStage::Telling { answer, read: 0 };
    }

    /// Whether a result with this ST0 is reported to the host. While pulses come in the time that SPECIFY sets, the
    /// result of a single pulse isn't.
    fn is_told(&self, status: u8) -> bool
        ensures { result ≡ is_told (chip_state D.state self.now).pace status }
    {
        status & St0::SEEK_END.bits() == 0 || self.pace.is_none()
    }

    /// Takes over a pending result of a seek or poll from the inner controller, and keeps it if it is to be reported.
    fn drain_one(&mut self)
        ensures { chip_state D.state self.new ≡ drained_one (chip_state D.state self.old) }
    {
        if let Some((status, cylinder)) = self.behind.sense() {
            if self.is_told(status) {
                self.interrupts.keep(status, cylinder);
            }
        }
    }

    /// Takes over all pending results of the inner controller.
    pub(crate) fn drain(&mut self)
        ensures { chip_state D.state self.new ≡ drained (chip_state D.state self.old) }
    {
        for _drive in 0..4u8 {
            self.drain_one();
        }
    }

    /// Whether heads move, by the seek bits of the inner controller.
    pub(crate) fn moves_heads(&mut self) -> bool
        ensures moves { result ≡ moves_heads (chip_state D.state self.old).front }
        ensures same { chip_state D.state self.new ≡ chip_state D.state self.old }
    {
        self.behind.read(STATUS) & SEEKING != 0
    }

    /// Whether heads move, or are to move.
    fn is_moving(&mut self) -> bool
        ensures moves { result ≡ is_moving (chip_state D.state self.old) }
        ensures same { chip_state D.state self.new ≡ chip_state D.state self.old }
    {
        self.pace.is_some() || self.moves_heads()
    }

    /// Does or holds a whole command that came, if there is one with this code.
    pub(crate) fn attend_to(&mut self, code: Option<ChipOpcode>)
        ensures { AttendsTo code (chip_state D.state self.old) (chip_state D.state self.new) }
    {
        match code {
            Some(code) => self.attend(code),
            None => self.tell(ChipAnswer::Byte { byte: INVALID }),
        }
    }

    /// Does a whole command, or holds it while heads move.
    fn attend(&mut self, code: ChipOpcode)
        ensures { Attends code (chip_state D.state self.old) (chip_state D.state self.new) }
    {
        self.drain();
        if code.needs_heads() && self.is_moving() {
            self.stage = ChipStage::Held;
            return;
        }
        self.obey(code);
    }

    /// Does a command.
    fn obey(&mut self, code: ChipOpcode)
        ensures { Obeys code (chip_state D.state self.old) (chip_state D.state self.new) }
    {
        let order = self.order;
        match code {
            ChipOpcode::Specify => self.specify(),
            ChipOpcode::SenseDrive => self.sense_drive(),
            ChipOpcode::SenseInterrupt => self.sense_interrupt(),
            ChipOpcode::Recalibrate => self.move_heads(None),
            ChipOpcode::Seek => self.move_heads(Some(order.key.c)),
            ChipOpcode::RelativeSeek { inward } => self.seek_from_here(inward),
            ChipOpcode::Version => self.tell(ChipAnswer::Byte { byte: ENHANCED }),
            ChipOpcode::Perpendicular => self.make_perpendicular(),
            ChipOpcode::Configure => self.configure(),
            ChipOpcode::DumpRegisters => self.dump_registers(),
            ChipOpcode::Lock { on } => self.lock(on),
            ChipOpcode::ReadId { mfm } => self.read_id(mfm),
            ChipOpcode::FormatTrack { mfm } => self.format(mfm),
            ChipOpcode::Transfer { mfm } => self.transfer(mfm, ChipTask::Sent, order),
            ChipOpcode::Verify { mfm } => self.verify(mfm),
            ChipOpcode::ReadTrack { mfm } => self.read_track(mfm),
        }
    }

    /// SPECIFY. The inner controller always moves bytes by DMA.
    fn specify(&mut self)
        ensures { chip_state D.state self.new ≡ specified (chip_state D.state self.old) }
    {
        self.settings = Settings {
            step_rate: self.order.unit,
            head_load: self.order.key.c,
            ..self.settings
        };
        self.stage = ChipStage::Ready;
    }

    /// SENSE DRIVE STATUS.
    fn sense_drive(&mut self)
        ensures { chip_state D.state self.new ≡ drive_sensed (chip_state D.state self.old) }
    {
        let byte = self.behind.drive_status(self.order.unit);
        self.tell(ChipAnswer::Byte { byte });
    }

    /// SENSE INTERRUPT.
    fn sense_interrupt(&mut self)
        ensures { chip_state D.state self.new ≡ sensing (chip_state D.state self.old) }
    {
        let answer = match self.interrupts.sense() {
            Some((status, cylinder)) => ChipAnswer::Sensed { status, cylinder },
            None => ChipAnswer::Byte { byte: INVALID },
        };
        self.tell(answer);
    }

    /// Sends the heads to a cylinder, or to track 0 if none is given. The pulses come in the time that SPECIFY sets, or
    /// the inner controller is given the seek.
    fn move_heads(&mut self, goal: Option<u8>)
        ensures { Moves goal (chip_state D.state self.old) (chip_state D.state self.new) }
    {
        self.stage = ChipStage::Ready;
        let unit = self.order.unit;
        if self.paced {
            self.pace = Some(PacedSeek::of(unit, self.interrupts.cylinder(unit), goal));
        } else {
            self.send_move(unit, goal);
        }
    }

    /// RELATIVE SEEK.
    fn seek_from_here(&mut self, inward: bool)
        ensures { Obeys (ChipOpcode.RelativeSeek inward) (chip_state D.state self.old) (chip_state D.state self.new) }
    {
        let Order { unit, key, .. } = self.order;
        let target = relative_target(inward, self.interrupts.cylinder(unit), key.c);
        self.move_heads(Some(target));
    }

    /// PERPENDICULAR MODE. At these rates it changes nothing but what DUMPREG gives.
    fn make_perpendicular(&mut self)
        ensures { chip_state D.state self.new ≡ made_perpendicular (chip_state D.state self.old) }
    {
        self.settings = self.settings.with_perpendicular(self.order.unit);
        self.stage = ChipStage::Ready;
    }

    /// CONFIGURE. The inner controller knows no EIS.
    fn configure(&mut self)
        ensures { Obeys ChipOpcode.Configure (chip_state D.state self.old) (chip_state D.state self.new) }
    {
        let key = self.order.key;
        self.settings = Settings {
            options: key.c,
            precompensation: key.h,
            forgotten: false,
            ..self.settings
        };
        self.stage = ChipStage::Ready;
        self.configure_behind(key.c, key.h);
    }

    /// Gives CONFIGURE to the inner controller.
    pub(crate) fn configure_behind(&mut self, options: u8, precompensation: u8)
        ensures { GivesOn (configuring options precompensation) (chip_state D.state self.old) (chip_state D.state self.new) }
    {
        self.command(Command::Configure {
            zero: 0,
            options: options & WITHOUT_IMPLIED_SEEK,
            pretrk: precompensation,
        });
    }

    /// DUMPREG.
    fn dump_registers(&mut self)
        ensures { chip_state D.state self.new ≡ dumped (chip_state D.state self.old) }
    {
        let registers = Registers {
            first: self.interrupts.cylinder(0),
            second: self.interrupts.cylinder(1),
            third: self.interrupts.cylinder(2),
            fourth: self.interrupts.cylinder(3),
            settings: self.settings,
        };
        self.tell(ChipAnswer::Registers { registers });
    }

    /// LOCK and UNLOCK.
    fn lock(&mut self, on: bool)
        ensures { chip_state D.state self.new ≡ locked on (chip_state D.state self.old) }
    {
        self.settings = Settings {
            locked: on,
            ..self.settings
        };
        self.tell(ChipAnswer::Byte {
            byte: if on { LOCKED } else { 0 },
        });
    }
}
