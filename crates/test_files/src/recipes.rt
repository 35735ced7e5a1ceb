// Recipes of files: each line adds bytes or changes those that are there.
use crate::draft::Draft;
use crate::line::LineWords;
use crate::wrong::Wrong;
use flop_base::Chrn;
use floppy_jobs::is_verb;
use floppy_jobs::numbers::hex_byte;
use sector_map::field_words;
use std::alloc::Global;
use track_format::layout;

/// The bytes in front of the words of an image.
const HEADER: usize = 14;

/// Adds the bytes that hexadecimal digits spell. The result says whether all digits are hexadecimal.
pub fn hex_bytes(bytes: &mut Draft, digits: &str) -> bool {
    let mut all = true;
    for pair in digits.as_bytes().chunks(2) {
        match hex_byte(pair) {
            Some(byte) => bytes.put(&[byte]),
            None => all = false,
        }
    }
    all
}

/// `hex DIGITS`
fn hex(bytes: &mut Draft, line: &mut LineWords) {
    if !hex_bytes(bytes, line.word()) {
        line.refuse();
    }
}

/// Where a word of an image stands. Words are counted from the first one of the first track.
fn place_of(word: usize) -> usize {
    word.saturating_mul(2).saturating_add(HEADER)
}

/// Adds the first bytes of an image: flags, cylinders, heads and rate, and how many words a track has.
fn put_head(bytes: &mut Draft, fields: [u8; 4], words: u16) {
    bytes.text("RTIMAGE2");
    bytes.put(&fields);
    bytes.words(&[words]);
}

/// `head FLAGS CYLS HEADS RATE WORDS`
fn head(bytes: &mut Draft, line: &mut LineWords) {
    let fields = [line.byte(), line.byte(), line.byte(), line.byte()];
    let words = line.short();
    put_head(bytes, fields, words);
}

/// How tracks are laid out.
#[derive(Clone, Copy)]
struct TrackLayout {
    sectors: u8,
    gap3: u8,
    fill: u8,
    words: usize,
}

/// Adds a track that is laid out with these keys; its sectors have size code `n`.
fn push_laid(bytes: &mut Draft, keys: &[Chrn], n: u8, form: TrackLayout) -> Result<(), Wrong> {
    if n < 1 || n > 6 {
        return Err(Wrong::Line);
    }
    match layout(bytes.alloc(), keys, n, form.gap3, form.fill, form.words) {
        Ok(track) => bytes.words(&track),
        Err(_) => return Err(Wrong::Line),
    }
    Ok(())
}

/// The keys of a track with `sectors` sectors of 512 bytes.
fn keys_of(alloc: Global, c: u8, h: u8, sectors: u8) -> Result<Vec<Chrn>, Wrong> {
    let mut keys = Vec::new(alloc);
    for i in 0..sectors {
        let r = i.wrapping_add(1);
        keys.push(Chrn { c, h, r, n: 2 })?;
    }
    Ok(keys)
}

fn push_track(bytes: &mut Draft, c: u8, h: u8, form: TrackLayout) -> Result<(), Wrong> {
    let keys = keys_of(bytes.alloc(), c, h, form.sectors)?;
    push_laid(bytes, &keys, 2, form)
}

/// `track C H SECTORS GAP3 FILL WORDS`
fn track(bytes: &mut Draft, line: &mut LineWords) -> Result<(), Wrong> {
    let (c, h) = (line.byte(), line.byte());
    let form = TrackLayout {
        sectors: line.byte(),
        gap3: line.byte(),
        fill: line.byte(),
        words: line.count(),
    };
    push_track(bytes, c, h, form)
}

/// The key that eight hexadecimal digits spell.
fn key_of(digits: &str) -> Chrn {
    let words = [digits];
    let [c, h, r, n] = LineWords::of(&words).hex(8, 8).to_be_bytes();
    Chrn { c, h, r, n }
}

fn keys_in(alloc: Global, words: &[&str]) -> Result<Vec<Chrn>, Wrong> {
    let mut keys = Vec::new(alloc);
    for word in words {
        keys.push(key_of(word))?;
    }
    Ok(keys)
}

/// `lay N GAP3 FILL WORDS KEY..`, each key eight hexadecimal digits
fn lay(bytes: &mut Draft, line: &mut LineWords) -> Result<(), Wrong> {
    let n = line.byte();
    let form = TrackLayout {
        sectors: 0,
        gap3: line.byte(),
        fill: line.byte(),
        words: line.count(),
    };
    let keys = keys_in(bytes.alloc(), line.words())?;
    push_laid(bytes, &keys, n, form)
}

/// The form of the tracks of a disk, by its rate.
fn form_of(rate: &str) -> TrackLayout {
    if is_verb(rate.as_bytes(), "500") {
        TrackLayout {
            sectors: 18,
            gap3: 0x6C,
            fill: 0xF6,
            words: 12_500,
        }
    } else {
        TrackLayout {
            sectors: 9,
            gap3: 0x50,
            fill: 0xF6,
            words: 6250,
        }
    }
}

/// `disk CYLS 500` or `disk CYLS 250`
fn disk(bytes: &mut Draft, line: &mut LineWords) -> Result<(), Wrong> {
    let cylinders = line.byte();
    let form = form_of(line.word());
    if form.sectors == 18 {
        put_head(bytes, [0, cylinders, 2, 0], 12_500);
    } else {
        put_head(bytes, [0, cylinders, 2, 2], 6250);
    }
    for c in 0..cylinders {
        push_track(bytes, c, 0, form)?;
        push_track(bytes, c, 1, form)?;
    }
    Ok(())
}

/// `words PLACE WORD..`
fn words(bytes: &mut Draft, line: &mut LineWords) {
    let place = line.count();
    let mut new = Draft::new(bytes.alloc());
    for word in line.words() {
        if word.len() != 4 || !hex_bytes(&mut new, word) {
            line.refuse();
        }
    }
    bytes.replace(place_of(place), new.bytes());
}

/// The first bytes over and over, until there are 512.
fn filled(first: &Draft) -> Draft {
    let mut content = Draft::new(first.alloc());
    for _ in 0..512 {
        content.put(first.bytes());
    }
    content.truncate(512);
    content
}

/// `field PLACE data|deleted CONTENT`: the window of 512 bytes, which are the given ones over and over
fn field(bytes: &mut Draft, line: &mut LineWords) -> Result<(), Wrong> {
    let place = line.count();
    let deleted = line.is("deleted");
    let mut first = Draft::new(bytes.alloc());
    hex(&mut first, line);
    let content = filled(&first);
    content.whole()?;
    let mut new = Draft::new(bytes.alloc());
    new.words(&field_words(bytes.alloc(), deleted, content.bytes())?);
    new.whole()?;
    bytes.replace(place_of(place), new.bytes());
    Ok(())
}

/// The bytes of the first track.
fn first_track(image: &[u8]) -> &[u8] {
    let words = match image.get(12..14) {
        Some([high, low]) => u16::from_be_bytes([*high, *low]),
        _ => 0,
    };
    let behind = image.get(HEADER..).unwrap_or(&[]);
    behind.get(..usize::from(words) * 2).unwrap_or(behind)
}

/// Eight bits of two bytes, from bit `bit % 8` of the first byte on; bit 0 is the highest.
fn bits_from(first: u8, next: u8, bit: u32) -> u8 {
    let pair = u16::from(first) << 8 | u16::from(next);
    let [_, low] = (pair >> (8 - bit % 8)).to_be_bytes();
    low
}

/// Moves the cells of the first track forward, so many places. Behind them stand cells 0, or the first cells if
/// `around` is true.
fn shift(bytes: &mut Draft, line: &mut LineWords, around: bool) {
    let cells = line.byte();
    if cells > 15 {
        line.refuse();
    }
    let mut ahead = Draft::new(bytes.alloc());
    let track = first_track(bytes.bytes());
    ahead.put(track);
    if around {
        ahead.put(track.get(..2).unwrap_or(&[]));
    } else {
        ahead.put(&[0, 0]);
    }
    let moved = moved_by(&ahead, cells);
    bytes.replace(HEADER, moved.bytes());
}

/// The cells of these bytes without the first `cells` ones. The result has two bytes fewer.
fn moved_by(ahead: &Draft, cells: u8) -> Draft {
    let mut moved = Draft::new(ahead.alloc());
    let skip = usize::from(cells / 8);
    let firsts = ahead.bytes().iter().skip(skip);
    let nexts = ahead.bytes().iter().skip(skip + 1);
    for (first, next) in firsts.zip(nexts) {
        moved.put(&[bits_from(*first, *next, u32::from(cells))]);
    }
    moved.truncate(ahead.bytes().len().saturating_sub(2));
    moved
}

/// `fillwords COUNT WORD`
fn fill_words(bytes: &mut Draft, line: &mut LineWords) {
    let copies = line.count();
    let word = line.hex_word();
    for _ in 0..copies {
        bytes.words(&[word]);
    }
}

/// `ramp COUNT`: bytes that differ from their neighbours, also from sector to sector
fn ramp(bytes: &mut Draft, line: &mut LineWords) {
    for i in 0..line.count() {
        let value = i.wrapping_mul(7).wrapping_add(i / 512) & 0xFF;
        bytes.put(&[value as u8]);
    }
}

/// `bytes PLACE DIGITS`
fn put_bytes(bytes: &mut Draft, line: &mut LineWords) {
    let place = line.count();
    let mut new = Draft::new(bytes.alloc());
    hex(&mut new, line);
    bytes.replace(place, new.bytes());
}

/// Follows a line of a recipe.
pub fn follow(bytes: &mut Draft, verb: &str, line: LineWords) -> Result<(), Wrong> {
    let mut line = line;
    follow_tracks(bytes, verb.as_bytes(), &mut line)?;
    line.end()?;
    bytes.whole()
}

/// Follows a line that lays out tracks, or another line.
fn follow_tracks(bytes: &mut Draft, verb: &[u8], line: &mut LineWords) -> Result<(), Wrong> {
    if is_verb(verb, "track") {
        track(bytes, line)
    } else if is_verb(verb, "lay") {
        lay(bytes, line)
    } else if is_verb(verb, "disk") {
        disk(bytes, line)
    } else if is_verb(verb, "field") {
        field(bytes, line)
    } else {
        follow_bytes(bytes, verb, line);
        Ok(())
    }
}

/// Follows a line that adds or changes bytes.
fn follow_bytes(bytes: &mut Draft, verb: &[u8], line: &mut LineWords) {
    if is_verb(verb, "head") {
        head(bytes, line);
    } else if is_verb(verb, "words") {
        words(bytes, line);
    } else if is_verb(verb, "fillwords") {
        fill_words(bytes, line);
    } else if is_verb(verb, "hex") {
        hex(bytes, line);
    } else if is_verb(verb, "fill") {
        bytes.copies(line.count(), line.byte());
    } else if is_verb(verb, "ramp") {
        ramp(bytes, line);
    } else if is_verb(verb, "move") {
        shift(bytes, line, false);
    } else if is_verb(verb, "turn") {
        shift(bytes, line, true);
    } else if is_verb(verb, "cut") {
        bytes.truncate(line.count());
    } else if is_verb(verb, "bytes") {
        put_bytes(bytes, line);
    } else {
        line.refuse();
    }
}
