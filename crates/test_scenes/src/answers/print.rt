// What is printed: a row of equal values as one value with their number, and keys.
use flop_base::Chrn;
use test_files::Draft;

/// A row of equal values.
#[derive(Clone, Copy)]
pub(crate) struct Runs {
    /// Whether the values have two digits; otherwise they have four.
    are_bytes: bool,
    last: Option<u16>,
    times: u64,
}

impl Runs {
    pub(crate) fn of_bytes() -> Runs {
        Runs {
            are_bytes: true,
            last: None,
            times: 0,
        }
    }

    pub(crate) fn of_words() -> Runs {
        Runs {
            are_bytes: false,
            last: None,
            times: 0,
        }
    }

    /// Adds one more value. If it differs from those before it, prints them.
    pub(crate) fn add(&mut self, value: u16, out: &mut Draft) {
        if self.last != Some(value) {
            self.end(out);
            self.last = Some(value);
        }
        self.times = self.times.saturating_add(1);
    }

    /// Prints the values that weren't printed yet.
    pub(crate) fn end(&mut self, out: &mut Draft) {
        if let Some(value) = self.last {
            self.put(value, out);
        }
        self.last = None;
        self.times = 0;
    }

    /// Prints the values that weren't printed yet, and ends the line.
    pub(crate) fn end_line(&mut self, out: &mut Draft) {
        self.end(out);
        out.line("");
    }

    fn put(&self, value: u16, out: &mut Draft) {
        out.text(" ");
        if self.times > 1 {
            out.number(self.times);
            out.text("x");
        }
        if self.are_bytes {
            let [_, byte] = value.to_be_bytes();
            out.hex_byte(byte);
        } else {
            out.hex_word(value);
        }
    }
}

/// Prints words as a line.
pub(crate) fn put_words(out: &mut Draft, words: &[u16]) {
    let mut runs = Runs::of_words();
    out.text("words");
    for word in words {
        runs.add(*word, out);
    }
    runs.end_line(out);
}

/// Prints bytes as a line that begins with `word`.
pub(crate) fn put_bytes_of(out: &mut Draft, word: &str, bytes: &[u8]) {
    let mut runs = Runs::of_bytes();
    out.text(word);
    for byte in bytes {
        runs.add(u16::from(*byte), out);
    }
    runs.end_line(out);
}

/// Prints bytes as a line.
pub(crate) fn put_bytes(out: &mut Draft, bytes: &[u8]) {
    put_bytes_of(out, "bytes", bytes);
}

/// Prints the four numbers of a key.
pub(crate) fn put_key(out: &mut Draft, key: Chrn) {
    let Chrn { c, h, r, n } = key;
    out.number(u64::from(c));
    out.numbers(&[u64::from(h), u64::from(r), u64::from(n)]);
}
