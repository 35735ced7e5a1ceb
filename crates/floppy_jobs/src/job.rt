// The text of a job: one request a line.
ghost use Rattle.std.specs.Prelude.{◌≡◌, map, All, IfOk};
ghost use Rattle.floppy_jobs.specs.LinesRead.{Reads, ReadsText};
ghost use Rattle.floppy_jobs.specs.Texts.{job_of};
ghost use Rattle.floppy_jobs.specs.Valid.{IsRequest};
ghost use Rattle.floppy_jobs.specs.Requests.{insert_of, blank_of, blankdd_of, eject_of, ack_of, sector_of, read_of, write_of, writedel_of, format_of, fill_of, dump_of, unit_of, rate_word_of, rate_of, tries_line_of, plain_of, request_of};

use crate::Request;
use crate::lines::{JobError, Line, LineError, MOST_LINES, read_lines};
use crate::name::named;
use crate::numbers::{address, byte, hex_byte, length, tries};
use crate::verb::is_verb;
use flop_base::{Chrn, Rate};
use std::alloc::Global;

/// Reads a job. A text with a bad line is refused as a whole. The text doesn't decide whether a bay or a place exists.
#[tactic(auto, unfolding(crate::specs::Texts::job_of))]
pub fn parse_job(alloc: Global, bytes: &[u8]) -> Result<Vec<Request>, JobError>
    ensures read { ReadsText (λ requests. requests.items) result (job_of bytes.now) }
    ensures valid { IfOk result (λ requests. All IsRequest requests.items) }
{
    read_lines(alloc, bytes, MOST_LINES)
}

impl Line for Request {
    ghost spelled = { request_of };

    fn read(alloc: Global, words: &[&[u8]]) -> Result<Request, LineError> {
        request(alloc, words)
    }
}

/// The request that a line's words spell.
#[tactic(auto, unfolding(crate::specs::Requests::request_of))]
pub fn request(alloc: Global, words: &[&[u8]]) -> Result<Request, LineError>
    ensures { Reads result (request_of (map (λ word. word.now) words.now)) }
{
    let (verb, fields) = words.split_first().ok_or(LineError::NotUnderstood)?;
    if is_verb(verb, "insert") {
        insert(alloc, fields)
    } else if is_verb(verb, "blank") {
        blank(alloc, fields)
    } else if is_verb(verb, "blankdd") {
        blankdd(alloc, fields)
    } else {
        plain(verb, fields).ok_or(LineError::NotUnderstood)
    }
}

/// The requests whose lines have no name.
#[tactic(auto, unfolding(crate::specs::Requests::plain_of))]
fn plain(verb: &[u8], fields: &[&[u8]]) -> Option<Request>
    ensures { result ≡ plain_of verb.now (map (λ word. word.now) fields.now) }
{
    if is_verb(verb, "eject") {
        eject(fields)
    } else if is_verb(verb, "ack") {
        ack(fields)
    } else if is_verb(verb, "read") {
        read(fields)
    } else if is_verb(verb, "write") {
        write(fields)
    } else if is_verb(verb, "writedel") {
        writedel(fields)
    } else if is_verb(verb, "format") {
        format(fields)
    } else if is_verb(verb, "fill") {
        fill(fields)
    } else if is_verb(verb, "dump") {
        dump(fields)
    } else if is_verb(verb, "unit") {
        unit(fields)
    } else if is_verb(verb, "rate") {
        rate(fields)
    } else if is_verb(verb, "tries") {
        tries_line(fields)
    } else {
        None
    }
}

#[tactic(auto, unfolding(crate::specs::Requests::insert_of))]
fn insert(alloc: Global, fields: &[&[u8]]) -> Result<Request, LineError>
    ensures { Reads result (insert_of (map (λ word. word.now) fields.now)) }
{
    let [bay, name] = fields else {
        return Err(LineError::NotUnderstood);
    };
    let bay = byte(bay).ok_or(LineError::NotUnderstood)?;
    let name = named(alloc, name)?;
    Ok(Request::Insert { bay, name })
}

#[tactic(auto, unfolding(crate::specs::Requests::blank_of))]
fn blank(alloc: Global, fields: &[&[u8]]) -> Result<Request, LineError>
    ensures { Reads result (blank_of (map (λ word. word.now) fields.now)) }
{
    let [bay, name, cylinders] = fields else {
        return Err(LineError::NotUnderstood);
    };
    let bay = byte(bay).ok_or(LineError::NotUnderstood)?;
    let cylinders = byte(cylinders).ok_or(LineError::NotUnderstood)?;
    let name = named(alloc, name)?;
    Ok(Request::Blank {
        bay,
        name,
        cylinders,
    })
}

#[tactic(auto, unfolding(crate::specs::Requests::blankdd_of))]
fn blankdd(alloc: Global, fields: &[&[u8]]) -> Result<Request, LineError>
    ensures { Reads result (blankdd_of (map (λ word. word.now) fields.now)) }
{
    let [bay, name, cylinders] = fields else {
        return Err(LineError::NotUnderstood);
    };
    let bay = byte(bay).ok_or(LineError::NotUnderstood)?;
    let cylinders = byte(cylinders).ok_or(LineError::NotUnderstood)?;
    let name = named(alloc, name)?;
    Ok(Request::BlankDd {
        bay,
        name,
        cylinders,
    })
}

#[tactic(auto, unfolding(crate::specs::Requests::eject_of))]
fn eject(fields: &[&[u8]]) -> Option<Request>
    ensures { result ≡ eject_of (map (λ word. word.now) fields.now) }
{
    let [bay] = fields else { return None };
    let bay = byte(bay)?;
    Some(Request::Eject { bay })
}

#[tactic(auto, unfolding(crate::specs::Requests::ack_of))]
fn ack(fields: &[&[u8]]) -> Option<Request>
    ensures { result ≡ ack_of (map (λ word. word.now) fields.now) }
{
    let [bay] = fields else { return None };
    let bay = byte(bay)?;
    Some(Request::Ack { bay })
}

/// The bay, the key and the address of a read or a write.
#[tactic(auto, unfolding(crate::specs::Requests::sector_of))]
fn sector(fields: &[&[u8]]) -> Option<(u8, Chrn, u32)>
    ensures { result ≡ sector_of (map (λ word. word.now) fields.now) }
{
    let [bay, c, h, r, n, place] = fields else {
        return None;
    };
    let bay = byte(bay)?;
    let c = byte(c)?;
    let h = byte(h)?;
    let r = byte(r)?;
    let n = byte(n)?;
    let address = address(place)?;
    Some((bay, Chrn { c, h, r, n }, address))
}

#[tactic(auto, unfolding(crate::specs::Requests::read_of))]
fn read(fields: &[&[u8]]) -> Option<Request>
    ensures { result ≡ read_of (map (λ word. word.now) fields.now) }
{
    let (bay, key, address) = sector(fields)?;
    Some(Request::Read { bay, key, address })
}

#[tactic(auto, unfolding(crate::specs::Requests::write_of))]
fn write(fields: &[&[u8]]) -> Option<Request>
    ensures { result ≡ write_of (map (λ word. word.now) fields.now) }
{
    let (bay, key, address) = sector(fields)?;
    Some(Request::Write { bay, key, address })
}

#[tactic(auto, unfolding(crate::specs::Requests::writedel_of))]
fn writedel(fields: &[&[u8]]) -> Option<Request>
    ensures { result ≡ writedel_of (map (λ word. word.now) fields.now) }
{
    let (bay, key, address) = sector(fields)?;
    Some(Request::WriteDeleted { bay, key, address })
}

#[tactic(auto, unfolding(crate::specs::Requests::format_of))]
fn format(fields: &[&[u8]]) -> Option<Request>
    ensures { result ≡ format_of (map (λ word. word.now) fields.now) }
{
    let [bay, c, h] = fields else { return None };
    let bay = byte(bay)?;
    let c = byte(c)?;
    let h = byte(h)?;
    Some(Request::Format { bay, c, h })
}

#[tactic(auto, unfolding(crate::specs::Requests::fill_of))]
fn fill(fields: &[&[u8]]) -> Option<Request>
    ensures { result ≡ fill_of (map (λ word. word.now) fields.now) }
{
    let [place, count, value] = fields else {
        return None;
    };
    let address = address(place)?;
    let length = length(count)?;
    let byte = hex_byte(value)?;
    Some(Request::Fill {
        address,
        length,
        byte,
    })
}

#[tactic(auto, unfolding(crate::specs::Requests::dump_of))]
fn dump(fields: &[&[u8]]) -> Option<Request>
    ensures { result ≡ dump_of (map (λ word. word.now) fields.now) }
{
    let [place, count] = fields else { return None };
    let address = address(place)?;
    let length = length(count)?;
    Some(Request::Dump { address, length })
}

#[tactic(auto, unfolding(crate::specs::Requests::unit_of))]
fn unit(fields: &[&[u8]]) -> Option<Request>
    ensures { result ≡ unit_of (map (λ word. word.now) fields.now) }
{
    let [bay] = fields else { return None };
    let bay = byte(bay)?;
    Some(Request::Unit { bay })
}

/// The rate that a word names, in kbit/s.
#[tactic(auto, unfolding(crate::specs::Requests::rate_word_of))]
fn rate_word(word: &[u8]) -> Option<Rate>
    ensures { result ≡ rate_word_of word.now }
{
    match word {
        b"500" => Some(Rate::R500),
        b"250" => Some(Rate::R250),
        _ => None,
    }
}

#[tactic(auto, unfolding(crate::specs::Requests::rate_of))]
fn rate(fields: &[&[u8]]) -> Option<Request>
    ensures { result ≡ rate_of (map (λ word. word.now) fields.now) }
{
    let [bay, rate] = fields else { return None };
    let bay = byte(bay)?;
    let rate = rate_word(rate)?;
    Some(Request::SetRate { bay, rate })
}

#[tactic(auto, unfolding(crate::specs::Requests::tries_line_of))]
fn tries_line(fields: &[&[u8]]) -> Option<Request>
    ensures { result ≡ tries_line_of (map (λ word. word.now) fields.now) }
{
    let [count] = fields else { return None };
    let tries = tries(count)?;
    Some(Request::Tries { tries })
}
