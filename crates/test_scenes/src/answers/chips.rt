// The bytes of commands, and a DMA channel with a memory of its own.
use super::{FileBytes, bench};
use dma_8237::{Dma, MEMORY_SIZE};
use fdc_commands::{Accepted, CommandBytes};
use floppy_jobs::is_verb;
use test_files::{Draft, LineWords, Wrong, words_in};

pub(crate) fn answer(
    verb: &[u8],
    asked: FileBytes,
    line: &mut LineWords,
    out: &mut Draft,
) -> Result<(), Wrong> {
    if is_verb(verb, "command") {
        command(asked, out)
    } else if is_verb(verb, "channel") {
        accesses(asked, out)
    } else {
        bench::answer(verb, asked, line, out)
    }
}

/// `command`: what each byte comes to, when they are sent to a controller that waits for a command
fn command(asked: FileBytes, out: &mut Draft) -> Result<(), Wrong> {
    let mut command = CommandBytes::new();
    for byte in asked.bytes {
        put_accepted(asked, command.accept(*byte), out)?;
    }
    Ok(())
}

fn put_accepted(asked: FileBytes, accepted: Accepted, out: &mut Draft) -> Result<(), Wrong> {
    match accepted {
        Accepted::More => out.line("more"),
        Accepted::Invalid => out.line("invalid"),
        Accepted::Ready(command) => {
            let told = format!(in asked.alloc; "{command:?}")?;
            out.line(told.as_str());
        }
    }
    Ok(())
}

/// A channel and a memory.
#[derive(Drop)]
struct Channel {
    dma: Dma,
    ram: Vec<u8>,
}

/// `channel`: what the lines of the file do to a channel at power-up, whose memory is 00
fn accesses(asked: FileBytes, out: &mut Draft) -> Result<(), Wrong> {
    let Ok(text) = std::str::from_utf8(asked.bytes) else {
        return Err(Wrong::Line);
    };
    let mut channel = Channel {
        dma: Dma::new(),
        ram: vec![in asked.alloc; 0u8; MEMORY_SIZE]?,
    };
    for access in text.lines() {
        out.line(access);
        let words = words_in(asked.alloc, access)?;
        let mut line = LineWords::of(&words);
        channel.access(&mut line, out);
        line.end()?;
    }
    Ok(())
}

impl Channel {
    /// Does a line: `out PORT BYTE`, `in PORT`, `poke ADDRESS BYTE`, `peek ADDRESS`, `take BYTE` from the device and
    /// `give` to it.
    fn access(&mut self, line: &mut LineWords, out: &mut Draft) {
        let verb = line.word().as_bytes();
        if is_verb(verb, "out") {
            self.dma.port_write(port(line), line.hex_byte());
        } else if is_verb(verb, "in") {
            out.hex_byte(self.dma.port_read(port(line)));
            out.line("");
        } else if is_verb(verb, "poke") {
            self.poke(line);
        } else if is_verb(verb, "peek") {
            self.peek(line, out);
        } else if is_verb(verb, "take") {
            self.take(line.hex_byte(), out);
        } else if is_verb(verb, "give") {
            self.give(out);
        } else {
            line.refuse();
        }
    }

    fn poke(&mut self, line: &mut LineWords) {
        let (place, value) = (address(line), line.hex_byte());
        match self.ram.as_mut_slice().get_mut(place) {
            Some(byte) => *byte = value,
            None => line.refuse(),
        }
    }

    fn peek(&self, line: &mut LineWords, out: &mut Draft) {
        match self.ram.as_slice().get(address(line)) {
            Some(value) => {
                out.hex_byte(*value);
                out.line("");
            }
            None => line.refuse(),
        }
    }

    /// Moves a byte of the device to memory, if the channel grants that.
    fn take(&mut self, value: u8, out: &mut Draft) {
        let ram = self.ram.as_mut_slice();
        if !self.dma.grants() || ram.len() != MEMORY_SIZE {
            out.line("not granted");
        } else if self.dma.move_in(ram, value) {
            out.line("last");
        } else {
            out.line("more");
        }
    }

    /// Moves a byte of memory to the device, if the channel grants that.
    fn give(&mut self, out: &mut Draft) {
        let ram = self.ram.as_slice();
        if !self.dma.grants() || ram.len() != MEMORY_SIZE {
            out.line("not granted");
            return;
        }
        let (value, last) = self.dma.move_out(ram);
        out.hex_byte(value);
        out.line(if last { " last" } else { " more" });
    }
}

/// A port: one to four hexadecimal digits.
fn port(line: &mut LineWords) -> u16 {
    let [_, _, high, low] = line.hex(1, 4).to_be_bytes();
    u16::from_be_bytes([high, low])
}

/// An address: one to five hexadecimal digits.
fn address(line: &mut LineWords) -> usize {
    line.hex(1, 5) as usize
}
