// The lines of a report. Each ends with a line feed and is put by one call.
ghost use Rattle.std.specs.Prelude.{◌≡◌, ◌++◌, ◌∷◌, [], ℕ, List, codes, IfErr, MatchResult, ◌≢◌, OnOk, OnErr, IfOk, IsErrOf, string_bytes};
ghost use Rattle.commands.specs.Common.{decimal, grown, GrowsByPart, reply_lines, stop_lines, stop_status, bad_line_text, absent_text, image_text, image_error_text, reason_text, dump_lines, dump_line, dump_byte, line_end, IsPutFault, Prints, Blames};
ghost use Rattle.commands.specs.Puts.{printed_of, Puts, PutsLast};
ghost use Rattle.commands.specs.LastLines.{bad_words_text, stopped_text, unfit_text};

use flop_base::{PutError, Sink, Status};
use floppy_jobs::{Address, MemoryByte, Request};
use raw_image::ImageError;
use sector_model::{Reason, Reply, Stop};
use std::alloc::{AllocError, Global};

/// The bytes of memory that a line of a dump shows.
const DUMP_LINE: usize = 16;

/// Puts a line.
fn put<K: Sink>(out: &mut K, line: &str) -> Result<(), Status>
    ensures { Puts (line.now ∷ []) (printed_of K.told K.fault_count out.old) result (printed_of K.told K.fault_count out.new) }
{
    match out.put(line.as_bytes()) {
        Ok(()) => Ok(()),
        Err(PutError::Failed) => Err(Status::SinkFault),
        Err(PutError::NoMemory) => Err(Status::NoMemory),
    }
}

/// Puts a line that was made.
pub fn put_line<K: Sink>(out: &mut K, line: Result<String, AllocError>) -> Result<(), Status>
    ensures ok { (text : List ℕ) → IfOk line (λ made. string_bytes made ≡ text)
        → OnOk result (K.told out.new ≡ grown (K.told out.old) (text ∷ [])) }
    ensures err { (text : List ℕ) → IfOk line (λ made. string_bytes made ≡ text)
        → OnErr result (GrowsByPart (K.told out.old) (text ∷ []) (K.told out.new)) }
    ensures only { IfErr result IsPutFault }
    ensures faults { Blames (IsErrOf result Status.SinkFault) (K.fault_count out.old) (K.fault_count out.new) }
{
    match line {
        Ok(line) => put(out, line.as_str()),
        Err(_) => Err(Status::NoMemory),
    }
}

/// Why a request was refused.
pub fn reason_word(alloc: Global, reason: Reason) -> Result<String, AllocError>
    ensures { IfOk result (λ word. string_bytes word ≡ reason_text reason) }
{
    match reason {
        Reason::Driver(code) => {
            let number = MemoryByte(code.number());
            format!(in alloc; "{number}")
        }
        Reason::Busy => String::from_str(alloc, "busy"),
        Reason::Empty => String::from_str(alloc, "empty"),
        Reason::NoSpare => String::from_str(alloc, "none"),
    }
}

/// The line of a request that was refused.
fn refusal_line(alloc: Global, verb: &str, reason: Reason) -> Result<String, AllocError>
    ensures { IfOk result (λ line. string_bytes line
        ≡ verb.now ++ (codes " refused " ++ (reason_text reason ++ line_end))) }
{
    let word = reason_word(alloc, reason)?;
    let word = word.as_str();
    format!(in alloc; "{verb} refused {word}\n")
}

/// What is wrong with an image, and the end of the line.
fn image_cause(alloc: Global, error: ImageError) -> Result<String, AllocError>
    ensures { IfOk result (λ text. string_bytes text ≡ image_error_text error) }
{
    match error {
        ImageError::BadMagic => format!(in alloc; "bad magic\n"),
        ImageError::BadField { offset } => format!(in alloc; "bad field at {offset}\n"),
        ImageError::TooShort { need, have } => {
            format!(in alloc; "too short, {need} needed, {have} there\n")
        }
        ImageError::Trailing { offset } => format!(in alloc; "trailing byte at {offset}\n"),
        ImageError::NoMemory => Err(AllocError),
    }
}

fn image_line(alloc: Global, name: &str, error: ImageError) -> Result<String, AllocError>
    ensures { IfOk result (λ line. string_bytes line ≡ image_text name.now (image_error_text error)) }
{
    let cause = image_cause(alloc, error)?;
    let cause = cause.as_str();
    format!(in alloc; "image {name}: {cause}")
}

/// Adds a byte of a dump.
fn push_byte(line: &mut String, value: u8) -> Result<(), AllocError>
    ensures { OnOk result (string_bytes line.new ≡ string_bytes line.old ++ dump_byte value) }
{
    let byte = MemoryByte(value);
    write!(line, " {byte}")?;
    Ok(())
}

/// A line of a dump: the address of its first byte, and its bytes.
#[tactic(auto, unfolding(sector_model::specs::Texts::dump_line))]
fn dump_line(alloc: Global, address: u32, row: &[u8]) -> Result<String, AllocError>
    ensures { IfOk result (λ line. string_bytes line ≡ dump_line address row.now) }
{
    let place = Address(address);
    let mut line = format!(in alloc; "{place}")?;
    for value in row {
        push_byte(&mut line, *value)?;
    }
    line.push('\n')?;
    Ok(line)
}

/// Puts a line of a dump.
fn put_row<K: Sink>(alloc: Global, out: &mut K, address: u32, row: &[u8]) -> Result<(), Status>
    ensures { Puts (dump_line address row.now ∷ []) (printed_of K.told K.fault_count out.old) result (printed_of K.told K.fault_count out.new) }
{
    put_line(out, dump_line(alloc, address, row))
}

/// Puts the lines of a dump: per 16 bytes the address of the first, then each byte.
fn put_dump<K: Sink>(alloc: Global, out: &mut K, address: u32, content: &[u8]) -> Result<(), Status>
    ensures { Puts (dump_lines address content.now) (printed_of K.told K.fault_count out.old) result (printed_of K.told K.fault_count out.new) }
{
    let mut place = address;
    for i in 0..content.len().div_ceil(DUMP_LINE) {
        let start = DUMP_LINE * i;
        let end = content.len().min(start + DUMP_LINE);
        put_row(alloc, out, place, &content[start..end])?;
        place = place.wrapping_add(16);
    }
    Ok(())
}

/// Puts the lines of the answer to a request.
#[tactic(auto, unfolding(sector_model::specs::Texts::reply_lines))]
pub fn put_reply<K: Sink>(
    alloc: Global,
    out: &mut K,
    request: &Request,
    reply: &Reply,
) -> Result<(), Status>
    ensures { Puts (reply_lines request.now reply.now) (printed_of K.told K.fault_count out.old) result (printed_of K.told K.fault_count out.new) }
{
    let verb = request.verb();
    match reply {
        Reply::Done => put_line(out, format!(in alloc; "{verb} ok\n")),
        Reply::DoneDeleted => put_line(out, format!(in alloc; "{verb} ok deleted\n")),
        Reply::Refused(reason) => put_line(out, refusal_line(alloc, verb, *reason)),
        Reply::Bytes { address, content } => put_dump(alloc, out, *address, content.as_slice()),
    }
}

/// Puts the last line of a run that stopped.
#[tactic(auto, unfolding(sector_model::specs::Texts::stop_lines))]
fn put_stop<K: Sink>(alloc: Global, out: &mut K, stop: &Stop) -> Result<(), Status>
    ensures puts { Puts (stop_lines stop.now) (printed_of K.told K.fault_count out.old) result (printed_of K.told K.fault_count out.new) }
    ensures fault_told { OnErr result (stop.now ≢ Stop.FileFault) }
{
    match stop {
        Stop::BadImage { name, error } => put_line(out, image_line(alloc, name.as_str(), *error)),
        Stop::TooLong { name, most } => put_line(out, longer_line(alloc, name.as_str(), *most)),
        Stop::Absent { name } => put_absent(alloc, out, name.as_str()),
        Stop::FileFault | Stop::NoMemory => Ok(()),
    }
}

/// The line of a file that is longer than any image.
fn longer_line(alloc: Global, name: &str, most: usize) -> Result<String, AllocError>
    ensures { IfOk result (λ line. string_bytes line
        ≡ image_text name.now (codes "longer than " ++ (decimal most ++ line_end))) }
{
    format!(in alloc; "image {name}: longer than {most}\n")
}

/// Puts the last line where a file isn't there.
fn put_absent<K: Sink>(alloc: Global, out: &mut K, name: &str) -> Result<(), Status>
    ensures { Puts (absent_text name.now ∷ []) (printed_of K.told K.fault_count out.old) result (printed_of K.told K.fault_count out.new) }
{
    put_line(out, format!(in alloc; "{name} absent\n"))
}

/// Puts the last line where a job's line isn't understood.
fn put_bad_line<K: Sink>(alloc: Global, out: &mut K, line: usize) -> Result<(), Status>
    ensures { Puts (bad_line_text line ∷ []) (printed_of K.told K.fault_count out.old) result (printed_of K.told K.fault_count out.new) }
{
    put_line(out, bad_line(alloc, line))
}

/// The last line where a job's line isn't understood.
#[tactic(auto, unfolding(sector_model::specs::Texts::bad_line_text))]
pub fn bad_line(alloc: Global, line: usize) -> Result<String, AllocError>
    ensures { IfOk result (λ made. string_bytes made ≡ bad_line_text line) }
{
    format!(in alloc; "job line {line} not understood\n")
}

/// The status after a last line was put, or the reason why the line couldn't be put.
pub fn after(put: Result<(), Status>, status: Status) -> Status
    requires { IfErr put IsPutFault }
    ensures exactly { MatchResult put (λ _. result ≡ status) (λ failed. result ≡ failed) }
    ensures fault { result ≢ status → IsPutFault result }
{
    match put {
        Ok(()) => status,
        Err(failed) => failed,
    }
}

/// The status of a run that was stopped by this.
pub fn stop_status(stop: &Stop) -> Status
    ensures { result ≡ stop_status stop.now }
{
    match stop {
        Stop::BadImage { .. } | Stop::TooLong { .. } => Status::BadImage,
        Stop::Absent { .. } => Status::Absent,
        Stop::FileFault => Status::FileFault,
        Stop::NoMemory => Status::NoMemory,
    }
}

/// Puts the last line of a run that stopped, and gives its status.
pub fn put_last<K: Sink>(alloc: Global, out: &mut K, stop: &Stop) -> Status
    ensures prints { Prints (stop_lines stop.now) (stop_status stop.now) (K.told out.old) (K.told out.new) result }
    ensures is_form { result ≢ Status.BadWords }
    ensures shelf_fault { result ≡ Status.FileFault → stop.now ≡ Stop.FileFault }
    ensures fault_told { stop.now ≡ Stop.FileFault → result ≡ Status.FileFault }
    ensures faults { Blames (result ≡ Status.SinkFault) (K.fault_count out.old) (K.fault_count out.new) }
{
    after(put_stop(alloc, out, stop), stop_status(stop))
}

/// Puts the last line where a file isn't there, and gives the status.
pub fn put_last_absent<K: Sink>(alloc: Global, out: &mut K, name: &str) -> Status
    ensures { PutsLast (absent_text name.now ∷ []) Status.Absent (printed_of K.told K.fault_count out.old) (printed_of K.told K.fault_count out.new) result }
{
    after(put_absent(alloc, out, name), Status::Absent)
}

/// Puts the last line where a job's line isn't understood, and gives the status.
pub fn put_last_bad_line<K: Sink>(alloc: Global, out: &mut K, line: usize) -> Status
    ensures { PutsLast (bad_line_text line ∷ []) Status.BadJob (printed_of K.told K.fault_count out.old) (printed_of K.told K.fault_count out.new) result }
{
    after(put_bad_line(alloc, out, line), Status::BadJob)
}

/// The line of a command that stopped at a refused request.
#[tactic(auto, unfolding(crate::specs::LastLines::stopped_text))]
pub fn stopped_line(alloc: Global, request: &Request, reason: Reason) -> Result<String, AllocError>
    ensures { IfOk result (λ line. string_bytes line ≡ stopped_text request.now reason) }
{
    let word = reason_word(alloc, reason)?;
    let word = word.as_str();
    format!(in alloc; "stopped at {request}: {word}\n")
}

/// Puts the last line of a command that stopped at a refused request, and gives the status.
pub fn put_last_stopped<K: Sink>(
    alloc: Global,
    out: &mut K,
    request: &Request,
    reason: Reason,
) -> Status
    ensures { PutsLast (stopped_text request.now reason ∷ []) Status.SomeRefused (printed_of K.told K.fault_count out.old) (printed_of K.told K.fault_count out.new) result }
{
    put_last_line(
        out,
        stopped_line(alloc, request, reason),
        Status::SomeRefused,
    )
}

#[tactic(auto, unfolding(crate::specs::LastLines::unfit_text))]
fn unfit_line(alloc: Global, c: u8, h: u8) -> Result<String, AllocError>
    ensures { IfOk result (λ line. string_bytes line ≡ unfit_text c h) }
{
    format!(in alloc; "track {c} {h} unfit\n")
}

/// Puts the last line where the track of a cylinder and a head doesn't fit another format, and gives the status.
/// status.
pub fn put_last_unfit<K: Sink>(alloc: Global, out: &mut K, c: u8, h: u8) -> Status
    ensures { PutsLast (unfit_text c h ∷ []) Status.SomeRefused (printed_of K.told K.fault_count out.old) (printed_of K.told K.fault_count out.new) result }
{
    put_last_line(out, unfit_line(alloc, c, h), Status::SomeRefused)
}

/// Puts the last line of a command, and gives the status.
pub fn put_last_line<K: Sink>(
    out: &mut K,
    line: Result<String, AllocError>,
    status: Status,
) -> Status
    ensures prints { (text : List ℕ) → IfOk line (λ made. string_bytes made ≡ text)
        → Prints (text ∷ []) status (K.told out.old) (K.told out.new) result }
    ensures only { result ≢ status → IsPutFault result }
    ensures faults { status ≢ Status.SinkFault
        → Blames (result ≡ Status.SinkFault) (K.fault_count out.old) (K.fault_count out.new) }
{
    after(put_line(out, line), status)
}

/// Puts the last line where the arguments (words) are no subcommand (form) of the program, and gives the status.
pub fn put_last_bad_words<K: Sink>(out: &mut K) -> Status
    ensures { PutsLast (bad_words_text ∷ []) Status.BadWords (printed_of K.told K.fault_count out.old) (printed_of K.told K.fault_count out.new) result }
{
    after(put(out, "words not understood\n"), Status::BadWords)
}
