// Ports.
ghost use Rattle.std.specs.Prelude.{◌≡◌, ◌==◌, ◌&&◌};
ghost use Rattle.fdc_chip.specs.Common.{SameDrives, adapter_of};
ghost use Rattle.fdc_chip.specs.Chips.{chip_state, behind_of, status_of, stage_bits, execution_bits, port_bits, output_of};
ghost use Rattle.fdc_chip.specs.Ports.{ReadsChip, ReadsAt, PassesOut, byte_told, WritesChip, TakesByte, Collects, may_come, with_next, PassesIn, is_whole, latched_by, value_behind};

use crate::answer::{ChipAnswer, NOTHING};
use crate::chip::Chip;
use crate::code::{ChipOpcode, has_bit};
use crate::doing::STATUS;
use crate::interrupts::Interrupts;
use crate::pace::pace_bit;
use crate::stage::ChipStage;
use drive_model::Inspect;
use fdc_core::Fdc;
use fdc_registers::{Dor, Flags, Msr};

/// The data port.
const DATA: u16 = 0x3F5;

/// DOR.
const OUTPUT: u16 = 0x3F2;

/// TDR, the tape drive register.
const TAPE: u16 = 0x3F3;

/// The bits of TDR that are kept.
const TAPE_DRIVE: u8 = 0x03;

/// The bits of TDR that nothing drives. They are read as 1.
const UNDRIVEN: u8 = 0xFC;

/// All of DOR but the bit that lets INT and DRQ out.
const WITHOUT_GATE: u8 = 0xF7;

/// The seek bits of MSR.
const SEEKING: u8 = 0x0F;

/// The bits of MSR by which a byte is asked for at the data port, if one is.
fn port_bits(asked: bool, to_memory: bool) -> Msr
    ensures { result.0 ≡ port_bits asked to_memory }
{
    match (asked, to_memory) {
        (true, true) => Msr::RQM.union(Msr::DIO),
        (true, false) => Msr::RQM,
        _ => Msr(0),
    }
}

/// The bits of MSR while a command is executed.
fn execution_bits(by_port: bool, asked: bool, to_memory: bool) -> Msr
    ensures { result.0 ≡ execution_bits by_port asked to_memory }
{
    if by_port {
        Msr::BUSY
            .union(Msr::NON_DMA)
            .union(port_bits(asked, to_memory))
    } else {
        Msr::BUSY
    }
}

/// Whether this many bytes are a whole command. If the code doesn't exist, one byte is.
fn is_whole(count: u8, code: Option<ChipOpcode>) -> bool
    ensures { result ≡ is_whole count code }
{
    match code {
        None => true,
        Some(code) => code.parameters() + 1 <= count,
    }
}

impl<D: Inspect> Chip<D> {
    /// Reads a port, 3F0 to 3F7.
    pub fn read(&mut self, port: u16) -> u8
        ensures reads { ReadsChip port (chip_state D.state self.old) result (chip_state D.state self.new) }
        ensures drives { SameDrives (adapter_of (behind_of self.old)) (adapter_of (behind_of self.new)) }
    {
        match port {
            STATUS => self.status(),
            DATA => self.give_byte(),
            OUTPUT => self.output(),
            TAPE => UNDRIVEN | self.tape,
            _ => self.behind.read(port),
        }
    }

    /// The main status register.
    fn status(&mut self) -> u8
        ensures value { result ≡ status_of (chip_state D.state self.old) }
        ensures same { chip_state D.state self.new ≡ chip_state D.state self.old }
        ensures drives { SameDrives (adapter_of (behind_of self.old)) (adapter_of (behind_of self.new)) }
    {
        let seeks = Msr(self.interrupts.seek_bits());
        let pace = Msr(pace_bit(self.pace));
        self.stage_bits().union(seeks).union(pace).bits()
    }

    /// DOR, as it was written.
    fn output(&mut self) -> u8
        ensures value { result ≡ output_of (chip_state D.state self.old) }
        ensures same { chip_state D.state self.new ≡ chip_state D.state self.old }
        ensures drives { SameDrives (adapter_of (behind_of self.old)) (adapter_of (behind_of self.new)) }
    {
        let gate = if self.gated { Dor::GATE.bits() } else { 0 };
        self.behind.read(OUTPUT) & WITHOUT_GATE | gate
    }

    /// The bits of MSR by what is under way.
    fn stage_bits(&mut self) -> Msr
        ensures value { result.0 ≡ stage_bits self.old.stage (chip_state D.state self.old) }
        ensures same { chip_state D.state self.new ≡ chip_state D.state self.old }
        ensures drives { SameDrives (adapter_of (behind_of self.old)) (adapter_of (behind_of self.new)) }
    {
        match self.stage {
            ChipStage::Ready => {
                let begun = if self.count == 0 { Msr(0) } else { Msr::BUSY };
                Msr(self.behind.read(STATUS)).union(begun)
            }
            ChipStage::Held => Msr(self.behind.read(STATUS) & SEEKING).union(Msr::BUSY),
            ChipStage::Busy { .. } => {
                let asked = self.passes() && self.behind.drq();
                let bits = execution_bits(
                    self.settings.is_by_port(),
                    asked,
                    self.behind.to_memory(),
                );
                Msr(self.behind.read(STATUS) & SEEKING).union(bits)
            }
            ChipStage::Telling { .. } => {
                let told = Msr::RQM.union(Msr::DIO).union(Msr::BUSY);
                Msr(self.behind.read(STATUS) & SEEKING).union(told)
            }
        }
    }

    /// The next byte of an answer, or of the command in execution.
    fn give_byte(&mut self) -> u8
        ensures reads { ReadsAt self.old.stage (chip_state D.state self.old) result (chip_state D.state self.new) }
        ensures drives { SameDrives (adapter_of (behind_of self.old)) (adapter_of (behind_of self.new)) }
    {
        match self.stage {
            ChipStage::Telling { answer, read } => {
                self.tell_next(answer, read);
                answer.byte(read)
            }
            _ => {
                if self.passes_by_port() {
                    self.pass_out()
                } else {
                    NOTHING
                }
            }
        }
    }

    /// Moves on after a byte of an answer was read.
    fn tell_next(&mut self, answer: ChipAnswer, read: u8)
        ensures told { chip_state D.state self.new ≡ byte_told answer read (chip_state D.state self.old) }
        ensures drives { SameDrives (adapter_of (behind_of self.old)) (adapter_of (behind_of self.new)) }
    {
        if answer.is_of_data() && read == 0 {
            self.interrupts.set_line(false);
        }
        self.stage = if u16::from(answer.count()) <= u16::from(read) + 1 {
            ChipStage::Ready
        } else {
            ChipStage::Telling {
                answer,
                read: read + 1,
            }
        };
    }

    /// Reads a byte of the command in execution.
    fn pass_out(&mut self) -> u8
        ensures passes { PassesOut (chip_state D.state self.old) result (chip_state D.state self.new) }
        ensures drives { SameDrives (adapter_of (behind_of self.old)) (adapter_of (behind_of self.new)) }
    {
        match self.behind.dack_read() {
            Some(byte) => byte,
            None => NOTHING,
        }
    }

    /// Writes a port, 3F0 to 3F7.
    pub fn write(&mut self, port: u16, value: u8)
        ensures { WritesChip port value (chip_state D.state self.old) (chip_state D.state self.new) }
    {
        if port == DATA {
            self.take_byte(value);
            return;
        }
        let given = self.latch(port, value);
        if Fdc::is_reset_by(port, given) {
            self.stage = ChipStage::Ready;
            self.count = 0;
            self.interrupts = Interrupts::new();
            self.settings = self.settings.reset();
            self.pace = None;
        }
        self.behind.write(port, given);
    }

    /// If the port is DOR, lets INT and DRQ out or keeps them in. If it is TDR, keeps its two low bits. Gives the byte
    /// for the inner controller, which always lets INT and DRQ out, so that its MSR asks for bytes all the same.
    fn latch(&mut self, port: u16, value: u8) -> u8
        ensures given { result ≡ value_behind port value }
        ensures latched { chip_state D.state self.new ≡ latched_by port value (chip_state D.state self.old) }
    {
        if port == TAPE {
            self.tape = value & TAPE_DRIVE;
        }
        if port != OUTPUT {
            return value;
        }
        let gate = Dor::GATE.bits();
        self.gated = has_bit(value, gate);
        value | gate
    }

    /// A byte is written to the data port.
    fn take_byte(&mut self, byte: u8)
        ensures { TakesByte self.old.stage byte (chip_state D.state self.old) (chip_state D.state self.new) }
    {
        match self.stage {
            ChipStage::Ready => {
                if self.may_come() {
                    self.add_byte(byte);
                    self.collect();
                }
            }
            _ => {
                if self.passes_by_port() {
                    self.pass_in(byte);
                }
            }
        }
    }

    /// Whether a byte of a command may come.
    fn may_come(&self) -> bool
        ensures { result ≡ may_come (chip_state D.state self.now) }
    {
        self.count != 0 || self.behind.is_ready()
    }

    /// Takes a byte of a command.
    fn add_byte(&mut self, byte: u8)
        ensures { chip_state D.state self.new ≡ with_next byte (chip_state D.state self.old) }
    {
        self.order = self.order.with(self.count, byte);
        self.count = self.count.wrapping_add(1);
    }

    /// Does the command, if its bytes are whole.
    fn collect(&mut self)
        ensures { Collects (chip_state D.state self.old) (chip_state D.state self.new) }
    {
        let code = ChipOpcode::of(self.order.code);
        if is_whole(self.count, code) {
            self.count = 0;
            self.attend_to(code);
        }
    }

    /// Writes a byte of the command in execution.
    fn pass_in(&mut self, byte: u8)
        ensures { PassesIn byte (chip_state D.state self.old) (chip_state D.state self.new) }
    {
        self.give(byte);
    }
}
