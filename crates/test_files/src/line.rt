// The words of a line.
use crate::wrong::Wrong;
use floppy_jobs::is_verb;
use floppy_jobs::numbers::number;
use std::alloc::Global;

/// The words of a text, between blanks.
pub fn words_in(alloc: Global, text: &str) -> Result<Vec<&str>, Wrong> {
    let mut words = Vec::new(alloc);
    for word in text.split_whitespace() {
        words.push(word)?;
    }
    Ok(words)
}

/// The words of a line, taken one by one. `end` alone reports a word that isn't there, or isn't what was asked for.
/// Until then, 0 or a word without letters stands for it.
#[derive(Clone, Copy)]
pub struct LineWords<'a> {
    words: &'a [&'a str],
    /// How many of the words were taken.
    taken: usize,
    is_wrong: bool,
}

impl<'a> LineWords<'a> {
    pub fn of(words: &'a [&'a str]) -> LineWords<'a> {
        LineWords {
            words,
            taken: 0,
            is_wrong: false,
        }
    }

    /// Whether each word was taken and understood.
    pub fn end(&self) -> Result<(), Wrong> {
        if self.is_wrong || self.taken != self.words.len() {
            Err(Wrong::Line)
        } else {
            Ok(())
        }
    }

    /// Marks the line as one that isn't understood.
    pub fn refuse(&mut self) {
        self.is_wrong = true;
    }

    /// Takes the next word.
    pub fn word(&mut self) -> &'a str {
        match self.words.get(self.taken) {
            Some(word) => {
                self.taken = self.taken.saturating_add(1);
                *word
            }
            None => {
                self.is_wrong = true;
                ""
            }
        }
    }

    /// Takes all words that are left.
    pub fn words(&mut self) -> &'a [&'a str] {
        let left = self.words.get(self.taken..).unwrap_or(&[]);
        self.taken = self.words.len();
        left
    }

    /// Takes the next word, and says whether it is this one.
    pub fn is(&mut self, word: &str) -> bool {
        is_verb(self.word().as_bytes(), word)
    }

    /// Takes a number in decimal digits.
    pub fn count(&mut self) -> usize {
        match self.word().parse::<usize>() {
            Ok(number) => number,
            Err(_) => {
                self.is_wrong = true;
                0
            }
        }
    }

    /// Takes a number of one byte, in decimal digits.
    pub fn byte(&mut self) -> u8 {
        match self.word().parse::<u8>() {
            Ok(number) => number,
            Err(_) => {
                self.is_wrong = true;
                0
            }
        }
    }

    /// Takes a number of two bytes, in decimal digits.
    pub fn short(&mut self) -> u16 {
        match self.word().parse::<u16>() {
            Ok(number) => number,
            Err(_) => {
                self.is_wrong = true;
                0
            }
        }
    }

    /// Takes a number of four bytes, in decimal digits.
    pub fn long(&mut self) -> u32 {
        match self.word().parse::<u32>() {
            Ok(number) => number,
            Err(_) => {
                self.is_wrong = true;
                0
            }
        }
    }

    /// Takes a number of `fewest` to `most` hexadecimal digits.
    pub fn hex(&mut self, fewest: usize, most: usize) -> u32 {
        match number(self.word().as_bytes(), 16, fewest, most, 0, u32::MAX) {
            Some(number) => number,
            None => {
                self.is_wrong = true;
                0
            }
        }
    }

    /// Takes a number of two hexadecimal digits.
    pub fn hex_byte(&mut self) -> u8 {
        let [_, _, _, byte] = self.hex(2, 2).to_be_bytes();
        byte
    }

    /// Takes a number of four hexadecimal digits.
    pub fn hex_word(&mut self) -> u16 {
        let [_, _, high, low] = self.hex(4, 4).to_be_bytes();
        u16::from_be_bytes([high, low])
    }
}
