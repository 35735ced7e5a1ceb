// The channel's registers, its ports, and the transfer of a byte.
ghost use Rattle.std.specs.Prelude.{◌≡◌, ◌==◌, ◌<◌, IsTrue, length, slice_set, slice_index, if◌then◌else◌};
ghost use Rattle.dma_8237.specs.Channel.{power_up, after_write, value_read, after_read, is_channel_2, grants, after_transfer, place_of, writes_memory, reads_memory};

mod saving;

use crate::word::{byte_of, toggle, with_byte};
use std::marker::Model;

/// The bytes that four bits of a page and an address of sixteen bits reach (PC/AT).
pub const MEMORY_SIZE: usize = 1_048_576;

// The ports of channel 2 (PC/AT).
const ADDRESS: u16 = 0x04;

const COUNT: u16 = 0x05;

const COMMAND_AND_STATUS: u16 = 0x08;

const SINGLE_MASK: u16 = 0x0A;

const MODE: u16 = 0x0B;

const CLEAR_FLIP_FLOP: u16 = 0x0C;

const MASTER_CLEAR: u16 = 0x0D;

const CLEAR_MASKS: u16 = 0x0E;

const ALL_MASKS: u16 = 0x0F;

const PAGE: u16 = 0x81;

// The bits of the page that an address uses.
const ADDRESS_BITS: u8 = 0x0F;

// Bits 3 and 2 of the mode: the type of a transfer.
const TYPE: u8 = 0x0C;

const TO_MEMORY: u8 = 0x04;

const FROM_MEMORY: u8 = 0x08;

const FORBIDDEN: u8 = 0x0C;

/// What a read gives where no register answers.
const OPEN_BUS: u8 = 0xFF;

/// DMA channel 2 with its page register (8237A data sheet, PC/AT). A byte of the page register is kept whole, and an
/// address uses its low four bits.
#[derive(Drop)]
pub struct Dma {
    base_address: u16,
    address: u16,
    base_count: u16,
    count: u16,
    high_byte_next: bool,
    command: u8,
    mode: u8,
    masked: bool,
    terminal_count: bool,
    page: u8,
}

impl Model for Dma {
    ghost use Rattle.dma_8237.specs.Channel.{Channel};

    ghost Value = { Channel };

    ghost view = { λ dma. record {
      base_address = dma.base_address;
      address = dma.address;
      base_count = dma.base_count;
      count = dma.count;
      high_byte_next = dma.high_byte_next;
      command = dma.command;
      mode = dma.mode;
      masked = dma.masked;
      terminal_count = dma.terminal_count;
      page = dma.page;
    } };
}

impl Dma {
    /// The channel at power-up: masked, and all else 0.
    pub fn new() -> Dma
        ensures { result ≡ power_up }
    {
        Dma {
            base_address: 0,
            address: 0,
            base_count: 0,
            count: 0,
            high_byte_next: false,
            command: 0,
            mode: 0,
            masked: true,
            terminal_count: false,
            page: 0,
        }
    }

    /// Reads a port: 04 the address and 05 the count, byte by byte, 08 the status, 81 the page. A port with no register
    /// of this channel to read gives FF.
    #[tactic(auto, unfolding(crate::specs::Channel::value_read, crate::specs::Channel::after_read))]
    pub fn port_read(&mut self, port: u16) -> u8
        ensures value { result ≡ value_read port self.old }
        ensures registers { self.new ≡ after_read port self.old }
    {
        match port {
            ADDRESS => {
                let high = toggle(&mut self.high_byte_next);
                byte_of(self.address, high)
            }
            COUNT => {
                let high = toggle(&mut self.high_byte_next);
                byte_of(self.count, high)
            }
            COMMAND_AND_STATUS => {
                let status = if self.terminal_count { 0x04 } else { 0 };
                self.terminal_count = false;
                status
            }
            PAGE => self.page,
            _ => OPEN_BUS,
        }
    }

    /// Writes a port: 04 the address and 05 the count, byte by byte, 08 the command, 0A to 0F mask, mode, flip-flop and
    /// clears, 81 the page. Other ports, and the mask and the mode of other channels, are ignored.
    #[tactic(auto, unfolding(crate::specs::Channel::after_write))]
    pub fn port_write(&mut self, port: u16, value: u8)
        ensures { self.new ≡ after_write port value self.old }
    {
        match port {
            ADDRESS => {
                let high = toggle(&mut self.high_byte_next);
                self.base_address = with_byte(self.base_address, high, value);
                self.address = with_byte(self.address, high, value);
            }
            COUNT => {
                let high = toggle(&mut self.high_byte_next);
                self.base_count = with_byte(self.base_count, high, value);
                self.count = with_byte(self.count, high, value);
            }
            COMMAND_AND_STATUS => self.command = value,
            SINGLE_MASK if is_channel_2(value) => self.masked = value & 0x04 != 0,
            MODE if is_channel_2(value) => self.mode = value,
            CLEAR_FLIP_FLOP => self.high_byte_next = false,
            MASTER_CLEAR => {
                self.high_byte_next = false;
                self.terminal_count = false;
                self.command = 0;
                self.masked = true;
            }
            CLEAR_MASKS => self.masked = false,
            ALL_MASKS => self.masked = value & 0x04 != 0,
            PAGE => self.page = value,
            _ => {}
        }
    }

    /// Whether the channel answers a request of its device: it is neither masked nor disabled, and its mode is that of
    /// single transfers that count up with no reload.
    #[tactic(auto, unfolding(crate::specs::Channel::grants))]
    pub fn grants(&self) -> bool
        ensures { result ≡ grants self.now }
    {
        !self.masked
            && self.command & 0x04 == 0
            && self.mode & 0xF0 == 0x40
            && self.mode & TYPE != FORBIDDEN
    }

    /// Moves one byte from the device to memory, and tells whether it is the last one (TC). A channel that isn't set to
    /// write memory counts the transfer and stores nothing.
    pub fn move_in(&mut self, ram: &mut [u8], byte: u8) -> bool
        requires granted { IsTrue (grants self.old) }
        requires whole_memory { length ram.old ≡ MEMORY_SIZE }
        ensures terminal { result ≡ (self.old.count == 0) }
        ensures registers { self.new ≡ after_transfer self.old }
        ensures memory { ram.new ≡ (if writes_memory self.old
            then slice_set ram.old (place_of self.old) byte else ram.old) }
        ensures within { place_of self.old < MEMORY_SIZE }
    {
        let place = self.place();
        if self.mode & TYPE == TO_MEMORY {
            ram[place] = byte;
        }
        self.advance()
    }

    /// Moves one byte from memory to the device, and tells whether it is the last one (TC). A channel that isn't set to
    /// read memory counts the transfer and delivers FF.
    pub fn move_out(&mut self, ram: &[u8]) -> (u8, bool)
        requires granted { IsTrue (grants self.old) }
        requires whole_memory { length ram.now ≡ MEMORY_SIZE }
        ensures byte { result.0 ≡ (if reads_memory self.old
            then slice_index ram.now (place_of self.old) else 0xFF) }
        ensures terminal { result.1 ≡ (self.old.count == 0) }
        ensures registers { self.new ≡ after_transfer self.old }
        ensures within { place_of self.old < MEMORY_SIZE }
    {
        let place = self.place();
        let byte = if self.mode & TYPE == FROM_MEMORY {
            ram[place]
        } else {
            OPEN_BUS
        };
        (byte, self.advance())
    }

    fn place(&self) -> usize
        ensures place { result ≡ place_of self.now }
        ensures within { result < MEMORY_SIZE }
    {
        usize::from(self.page & ADDRESS_BITS) * 65_536 + usize::from(self.address)
    }

    /// Counts one transfer. The address wraps inside its page, and a count of 0 runs out (TC).
    fn advance(&mut self) -> bool
        ensures terminal { result ≡ (self.old.count == 0) }
        ensures registers { self.new ≡ after_transfer self.old }
    {
        let runs_out = self.count == 0;
        self.address = self.address.wrapping_add(1);
        self.count = self.count.wrapping_sub(1);
        self.terminal_count |= runs_out;
        self.masked |= runs_out;
        runs_out
    }
}

fn is_channel_2(value: u8) -> bool
    ensures { result ≡ is_channel_2 value }
{
    value & 0x03 == 2
}
