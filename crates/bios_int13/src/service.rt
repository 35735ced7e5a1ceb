// Calls of INT 13h: what each call asks the station for, request by request.
ghost use Rattle.std.specs.Prelude.{◌≡◌, ◌+◌, ◌≤◌, if◌then◌else◌, List, length, Option};
ghost use Rattle.flop_base.specs.Shelf.{Files};
ghost use Rattle.flop_base.specs.Lists.{with_items};
ghost use Rattle.flop_base.specs.Memory.{user_bytes, bytes_from, SameOutside};
ghost use Rattle.sector_model.specs.Runs.{Taken};
ghost use Rattle.sector_model.specs.Orders.{is_acknowledged};
ghost use Rattle.sector_model.specs.States.{IsSame};
ghost use Rattle.bios_int13.specs.Table.{IsDoable, IsTransfer, IsAnswerTo};
ghost use Rattle.bios_int13.specs.Services.{Serves, DoesWork, Transfers, MovesRecords, MovesRecord, VerifiesRecords, AcksAlone, AreDone, ack_code, record_request, record_requests, place_of_record, put_requests};

use crate::{Int13, Kind, Regs, Work};
use flop_base::standard::SIZE_CODE;
use flop_base::{Chrn, Code};
use floppy_jobs::Request;
use floppy_session::Session;
use sector_model::Station;

/// The bytes of a record.
const RECORD_BYTES: usize = 512;

/// The result of the work of a call.
#[derive(Clone, Copy)]
pub(crate) struct WorkResult {
    /// The code of INT 13h. It is 00 if nothing was refused.
    code: u8,
    /// The records that were moved without a refusal.
    moved: u8,
}

/// Where a record is in memory. The records follow each other there. A verify reads each record to the same place.
fn place_of_record(kind: Kind, address: u32, i: u8) -> u32
    requires { address ≤ user_bytes }
    ensures { result ≡ place_of_record kind address i }
{
    match kind {
        Kind::Read | Kind::Write => address + 512 * u32::from(i),
        Kind::Verify => address,
    }
}

/// The answer if a bay had to be acknowledged first.
fn ack_code(called: Result<(), Code>) -> u8
    ensures { result ≡ ack_code called }
{
    match called {
        Ok(()) => Code::Changed.number(),
        Err(code) => code.number(),
    }
}

/// Serves a call of INT 13h (PC/AT). The service `front` keeps the status. Records are read or written one after the
/// other, up to the first one that is refused. If the bay isn't acknowledged, the call acknowledges it and moves no
/// record. A verify leaves memory as it was. A call allocates no memory.
pub fn serve<D: Station>(session: &mut Session<D>, front: &mut Int13, regs: Regs) -> Regs
    ensures { (told : Option Files) → (course : List Taken) × Serves front.old regs session.old told
        result front.new course session.new }
{
    let WorkResult { code, moved } = do_work(session, front.plan(regs));
    front.finish(regs, code, moved)
}

/// Does the work of a call.
fn do_work<D: Station>(session: &mut Session<D>, work: Work) -> WorkResult
    requires { IsDoable work }
    ensures does { (told : Option Files) → (course : List Taken) × DoesWork work session.old told course
        result.code result.moved session.new }
    ensures answer { IsAnswerTo work result.code result.moved }
{
    match work {
        Work::Answer { code } => WorkResult { code, moved: 0 },
        Work::Changed { bay } => WorkResult {
            code: change_code(session, bay),
            moved: 0,
        },
        Work::Move {
            kind,
            bay,
            c,
            h,
            r,
            count,
            address,
        } => {
            let first = Chrn {
                c,
                h,
                r,
                n: SIZE_CODE,
            };
            transfer(session, kind, bay, first, count, address)
        }
    }
}

/// The code that says whether the bay isn't acknowledged.
fn change_code<D: Station>(session: &mut Session<D>, bay: u8) -> u8
    requires { bay ≤ 1 }
    ensures value { result ≡ (if is_acknowledged session.old.station bay then 0x00 else 0x06) }
    ensures same { IsSame 2 session.old session.new }
{
    if session.is_changed(bay) {
        Code::Changed.number()
    } else {
        0x00
    }
}

/// Moves the records of a transfer. If the bay has to be acknowledged first, does that alone.
fn transfer<D: Station>(
    session: &mut Session<D>,
    kind: Kind,
    bay: u8,
    first: Chrn,
    count: u8,
    address: u32,
) -> WorkResult
    requires transfer { IsTransfer kind bay first.c first.h first.r count address }
    requires size { first.n ≡ 2 }
    ensures { (told : Option Files) → (course : List Taken) × Transfers kind bay first count address
        session.old told course result.code result.moved session.new }
{
    if session.is_changed(bay) {
        return acknowledge_alone(session, bay);
    }
    match kind {
        Kind::Verify => verify_records(session, bay, first, count, address),
        Kind::Read | Kind::Write => move_records(session, kind, bay, first, count, address),
    }
}

/// Acknowledges a bay, for a call that moves no record.
fn acknowledge_alone<D: Station>(session: &mut Session<D>, bay: u8) -> WorkResult
    requires { bay ≤ 1 }
    ensures { (told : Option Files) → (course : List Taken) × AcksAlone bay session.old told course
        result.code result.moved session.new }
{
    WorkResult {
        code: ack_code(session.acknowledge(bay)),
        moved: 0,
    }
}

/// Reads a record, whatever its mark.
fn read_any<D: Station>(
    session: &mut Session<D>,
    bay: u8,
    key: Chrn,
    address: u32,
) -> Result<(), Code>
    ensures moves { (told : Option Files) → MovesRecord (Request.Read bay key address) session.old told result session.new }
    ensures outside { key.n ≡ 2 → address + 512 ≤ length session.old.station.memory
        → SameOutside address 512 session.old.station.memory session.new.station.memory }
{
    match session.read_record(bay, key, address) {
        Ok(_) => Ok(()),
        Err(code) => Err(code),
    }
}

/// Moves a record.
fn move_record<D: Station>(
    session: &mut Session<D>,
    kind: Kind,
    bay: u8,
    key: Chrn,
    address: u32,
) -> Result<(), Code>
    ensures moves { (told : Option Files) → MovesRecord (record_request kind bay key address) session.old told result session.new }
    ensures outside { kind ≡ Kind.Verify → key.n ≡ 2 → address + 512 ≤ length session.old.station.memory
        → SameOutside address 512 session.old.station.memory session.new.station.memory }
{
    match kind {
        Kind::Read | Kind::Verify => read_any(session, bay, key, address),
        Kind::Write => session.write_record(bay, key, address),
    }
}

/// Moves records one after the other, up to the first that is refused.
fn move_records<D: Station>(
    session: &mut Session<D>,
    kind: Kind,
    bay: u8,
    first: Chrn,
    count: u8,
    address: u32,
) -> WorkResult
    requires size { first.n ≡ 2 }
    requires last { first.r + count ≤ 256 }
    requires within { address ≤ user_bytes }
    ensures moves { (told : Option Files) → (course : List Taken) × MovesRecords (record_requests kind bay first address count)
        session.old told course result.code result.moved session.new }
    ensures outside { kind ≡ Kind.Verify → address + 512 ≤ length session.old.station.memory
        → SameOutside address 512 session.old.station.memory session.new.station.memory }
{
    for i in 0..count {
        let key = Chrn {
            r: first.r + i,
            ..first
        };
        match move_record(session, kind, bay, key, place_of_record(kind, address, i)) {
            Ok(()) => {}
            Err(code) => {
                return WorkResult {
                    code: code.number(),
                    moved: i,
                };
            }
        }
    }
    WorkResult {
        code: 0x00,
        moved: count,
    }
}

/// Reads records to an address one after the other, up to the first that is refused. Then puts back the bytes that
/// were at this address.
fn verify_records<D: Station>(
    session: &mut Session<D>,
    bay: u8,
    first: Chrn,
    count: u8,
    address: u32,
) -> WorkResult
    requires size { first.n ≡ 2 }
    requires last { first.r + count ≤ 256 }
    requires within { address + 512 ≤ user_bytes }
    ensures { (told : Option Files) → (course : List Taken)
        × VerifiesRecords address (record_requests Kind.Verify bay first address count) session.old told course
        result.code result.moved session.new }
{
    let kept = bytes_at(session, address);
    let outcome = move_records(session, Kind::Verify, bay, first, count, address);
    put_back(session, address, &kept);
    outcome
}

/// The bytes of memory, from an address on, that a record would take.
fn bytes_at<D: Station>(session: &Session<D>, address: u32) -> [u8; RECORD_BYTES]
    requires { address + 512 ≤ user_bytes }
    ensures bytes { result ≡ bytes_from session.now.station.memory address 512 }
    ensures room { address + 512 ≤ length session.now.station.memory }
{
    let station = session.station();
    let mut kept = [station.memory(address); RECORD_BYTES];
    for i in 1..RECORD_BYTES {
        kept[i] = station.memory(address + i as u32);
    }
    kept
}

/// Puts bytes to memory from an address on.
fn put_back<D: Station>(session: &mut Session<D>, address: u32, kept: &[u8; RECORD_BYTES])
    requires within { address + 512 ≤ user_bytes }
    requires room { address + 512 ≤ length session.old.station.memory }
    ensures puts { (told : Option Files) → (course : List Taken) × AreDone (put_requests address kept.now)
        session.old told course session.new }
    ensures memory { session.new.station.memory ≡ with_items session.old.station.memory address kept.now }
{
    for i in 0..RECORD_BYTES {
        session.fill(address + i as u32, 1, kept[i]);
    }
}
