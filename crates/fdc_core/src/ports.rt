// The controller's ports (PC/AT): 3F2 DOR, 3F4 MSR and DSR, 3F5 the data port, 3F7 DIR and CCR.
ghost use Rattle.std.specs.Prelude.{◌≡◌};
ghost use Rattle.fdc_core.specs.Written.{KeepsKnown};
ghost use Rattle.fdc_core.specs.Ports.{is_taking, main_status, line_bits, result_byte, given, dor_written, dsr_written, resets, Writes, value_read, after_read};

use crate::controller::{Fdc, Lines};
use fdc_phases::{DataRate, Phase};
use fdc_registers::ports::{CCR, DATA, DIR, DOR, DSR, MSR};
use fdc_registers::{Dir, Dor, Flags, Msr};

/// What a port gives that has nothing to give.
const NOTHING: u8 = 0xFF;

/// The bit of DSR that resets the controller, and clears itself.
const SOFT_RESET: u8 = 0x80;

impl Fdc {
    /// Reads a port (82077AA in PC/AT mode): 3F2 DOR, 3F4 the main status, 3F5 the next result byte, 3F7 the change
    /// line in bit 7. Others, and 3F5 with no result, give FF.
    pub fn read(&mut self, port: u16, lines: Lines) -> u8
        ensures value { result ≡ value_read port lines self.old }
        ensures after { self.new ≡ after_read port self.old }
        ensures keeps { KeepsKnown self.old self.new }
    {
        match port {
            DOR => self.dor.bits(),
            MSR => self.main_status(),
            DATA => self.give_byte(),
            DIR => line_bits(lines),
            _ => NOTHING,
        }
    }

    /// Writes a port: 3F2 DOR, 3F4 DSR, 3F5 a byte of a command, 3F7 CCR. Others, and 3F5 where no command is taken,
    /// are ignored.
    pub fn write(&mut self, port: u16, value: u8, lines: Lines)
        ensures writes { Writes port value lines self.old self.new }
        ensures keeps { KeepsKnown self.old self.new }
    {
        match port {
            DOR => self.write_dor(value),
            DSR => self.write_dsr(value),
            DATA => {
                if self.is_taking() {
                    self.take_command_byte(value, lines);
                }
            }
            CCR => self.rate = DataRate::chosen_by(value),
            _ => {}
        }
    }

    /// Whether a byte that is written to a port resets the controller. It does in DOR with bit 2 zero, and in DSR with
    /// bit 7 one.
    pub fn is_reset_by(port: u16, value: u8) -> bool
        ensures { result ≡ resets port value }
    {
        match port {
            DOR => !Dor(value).contains(Dor::NOT_RESET),
            DSR => value & SOFT_RESET != 0,
            _ => false,
        }
    }

    /// The main status register.
    fn main_status(&self) -> u8
        ensures { result ≡ main_status self.now }
    {
        if self.is_held() {
            return 0;
        }
        let phase = match self.phase {
            Phase::Command => {
                if self.command.is_begun() {
                    Msr::RQM.union(Msr::BUSY)
                } else {
                    Msr::RQM
                }
            }
            Phase::Execute { .. } => Msr::BUSY,
            Phase::Result { .. } => Msr::RQM.union(Msr::DIO).union(Msr::BUSY),
        };
        phase.union(Msr(self.seeks.bits())).bits()
    }

    /// Whether the data port takes a byte.
    pub(crate) fn is_taking(&self) -> bool
        ensures { result ≡ is_taking self.now }
    {
        match self.phase {
            Phase::Command => !self.is_held(),
            _ => false,
        }
    }

    /// The next result byte. INT falls with the first one of a data command.
    fn give_byte(&mut self) -> u8
        ensures value { result ≡ result_byte self.old.phase }
        ensures after { self.new ≡ given self.old }
    {
        match self.phase {
            Phase::Result { answer } => {
                if answer.is_fresh() {
                    self.interrupt = false;
                }
                self.phase = answer.after();
                answer.next()
            }
            _ => NOTHING,
        }
    }

    /// DOR is written.
    fn write_dor(&mut self, value: u8)
        ensures { self.new ≡ dor_written value self.old }
    {
        self.dor = Dor(value);
        if Fdc::is_reset_by(DOR, value) {
            self.reset();
        }
    }

    /// DSR is written.
    fn write_dsr(&mut self, value: u8)
        ensures { self.new ≡ dsr_written value self.old }
    {
        self.rate = DataRate::chosen_by(value);
        if Fdc::is_reset_by(DSR, value) {
            self.reset();
        }
    }
}

/// The digital input register.
fn line_bits(lines: Lines) -> u8
    ensures { result ≡ line_bits lines }
{
    if lines.changed {
        Dir::CHANGED.bits()
    } else {
        0
    }
}
