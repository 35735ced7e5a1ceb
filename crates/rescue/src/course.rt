// The requests of a rescue, and what follows each read.
ghost use Rattle.std.specs.Prelude.{◌≡◌};
ghost use Rattle.rescue.specs.Course.{read_of, write_of, after_read as next_of};

use crate::LogLine;
use flop_base::{Chrn, Code};
use floppy_jobs::Request;

/// The bay of the diskette that is read.
const FROM: u8 = 0;

/// The bay of the diskette that is written.
const TO: u8 = 1;

/// Where a record lies in memory between its read and its write.
const BUFFER: u32 = 0x10000;

/// What follows the read of a record.
#[derive(Drop)]
pub enum AfterRead {
    /// This request comes next: the record is written to the other diskette, with the mark that it had.
    Write(Request),
    /// The record stays unread, and the new log has this line.
    Log(LogLine),
    /// The rescue stops at this refusal, and stores nothing.
    Stop(Code),
}

/// The request that reads a record.
pub fn read_request(key: Chrn) -> Request
    ensures { result ≡ read_of key }
{
    Request::Read {
        bay: FROM,
        key,
        address: BUFFER,
    }
}

/// The request that writes a record, marked deleted or not.
fn write_request(key: Chrn, deleted: bool) -> Request
    ensures { result ≡ write_of key deleted }
{
    let bay = TO;
    let address = BUFFER;
    if deleted {
        Request::WriteDeleted { bay, key, address }
    } else {
        Request::Write { bay, key, address }
    }
}

/// What follows the read of a record; `Ok(true)` says that the record is marked deleted.
pub fn after_read(key: Chrn, read: Result<bool, Code>) -> AfterRead
    ensures { result ≡ next_of key read }
{
    match read {
        Ok(deleted) => AfterRead::Write(write_request(key, deleted)),
        Err(code @ (Code::NoMark | Code::NotFound | Code::Overrun | Code::BadCrc | Code::Seek)) =>
            AfterRead::Log(LogLine { key, code }),
        Err(code) => AfterRead::Stop(code),
    }
}
