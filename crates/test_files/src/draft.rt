// Bytes that are added to: a file that is made, or what is printed.
use crate::wrong::Wrong;
use std::alloc::{AllocError, Global};
use std::fmt::Display;

/// Bytes that are added to. If memory runs out, the line that isn't whole and all that comes after it are left out.
/// `whole` reports that, so its user asks once, at the end.
#[derive(Drop)]
pub struct Draft {
    alloc: Global,
    bytes: Vec<u8>,
    /// How many of the bytes are whole lines.
    kept: usize,
    is_cut: bool,
}

impl Draft {
    pub fn new(alloc: Global) -> Draft {
        Draft {
            alloc,
            bytes: Vec::new(alloc),
            kept: 0,
            is_cut: false,
        }
    }

    pub fn alloc(&self) -> Global {
        self.alloc
    }

    pub fn bytes(&self) -> &[u8] {
        &self.bytes
    }

    /// Whether all that was added is there.
    pub fn whole(&self) -> Result<(), Wrong> {
        if self.is_cut {
            Err(Wrong::NoMemory)
        } else {
            Ok(())
        }
    }

    fn cut(&mut self) {
        self.is_cut = true;
        self.bytes.truncate(self.kept);
    }

    pub fn put(&mut self, bytes: &[u8]) {
        if !self.is_cut && self.bytes.extend_from_slice(bytes).is_err() {
            self.cut();
        }
    }

    pub fn text(&mut self, text: &str) {
        self.put(text.as_bytes());
    }

    /// Adds a text and a line feed.
    pub fn line(&mut self, text: &str) {
        self.text(text);
        self.text("\n");
        self.kept = self.bytes.len();
    }

    fn add(&mut self, told: Result<String, AllocError>) {
        match told {
            Ok(told) => self.text(told.as_str()),
            Err(_) => self.cut(),
        }
    }

    /// Adds a value as it is shown.
    pub fn show<T: Display>(&mut self, value: &T) {
        let told = format!(in self.alloc; "{value}");
        self.add(told);
    }

    /// Adds a value as it is shown, and a line feed.
    pub fn show_line<T: Display>(&mut self, value: &T) {
        self.show(value);
        self.line("");
    }

    /// Adds two hexadecimal digits.
    pub fn hex_byte(&mut self, value: u8) {
        let told = format!(in self.alloc; "{value:02X}");
        self.add(told);
    }

    /// Adds four hexadecimal digits.
    pub fn hex_word(&mut self, value: u16) {
        let told = format!(in self.alloc; "{value:04X}");
        self.add(told);
    }

    /// Adds three hexadecimal digits, or four if the value has four.
    pub fn hex_port(&mut self, value: u16) {
        let told = format!(in self.alloc; "{value:03X}");
        self.add(told);
    }

    /// Adds five hexadecimal digits.
    pub fn hex_address(&mut self, value: u32) {
        let told = format!(in self.alloc; "{value:05X}");
        self.add(told);
    }

    /// Adds eight hexadecimal digits.
    pub fn hex_long(&mut self, value: u32) {
        let told = format!(in self.alloc; "{value:08X}");
        self.add(told);
    }

    /// Adds a number in decimal digits.
    pub fn number(&mut self, number: u64) {
        self.show(&number);
    }

    /// Adds numbers in decimal digits, with a blank before each.
    pub fn numbers(&mut self, numbers: &[u64]) {
        for number in numbers {
            self.text(" ");
            self.number(*number);
        }
    }

    /// Adds words, with the high byte of each first.
    pub fn words(&mut self, words: &[u16]) {
        for word in words {
            self.put(&word.to_be_bytes());
        }
    }

    /// Adds the same byte `copies` times.
    pub fn copies(&mut self, copies: usize, byte: u8) {
        for _ in 0..copies {
            self.put(&[byte]);
        }
    }

    /// Leaves the first `length` bytes.
    pub fn truncate(&mut self, length: usize) {
        self.bytes.truncate(length);
    }

    /// Puts these bytes in place of those that stand from a place on.
    pub fn replace(&mut self, place: usize, new: &[u8]) {
        for (old, new) in self.bytes.iter_mut().skip(place).zip(new) {
            *old = *new;
        }
    }
}
