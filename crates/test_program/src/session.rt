// A session over a machine by itself: requests one by one, and calls of INT 13h.
ghost use Rattle.floppy_session.specs.Tries.{HasTries};

use crate::machines::{machine, spare};
use crate::shelves::shelf_with_disk;
use bios_int13::{Int13, Regs};
use drive_model::PlainDrive;
use flop_base::{Chrn, Code, Name};
use floppy_jobs::Request;
use memory_files::{MachineSession, MemShelf};
use pc_bus::MachineOf;
use sector_model::{Reason, Reply, Stop};
use std::alloc::Global;
use std::test::Fail;

/// The result of a request, or nothing if it was neither done nor refused by the driver.
fn answer(reply: Result<Reply, Stop>) -> Option<Result<(), Code>> {
    match reply {
        Ok(Reply::Done) => Some(Ok(())),
        Ok(Reply::Refused(Reason::Driver(code))) => Some(Err(code)),
        _ => None,
    }
}

/// A session with two empty bays.
fn new_session(alloc: Global) -> Result<MachineSession<PlainDrive>, Fail> {
    let machine = machine(alloc)?;
    let spare = spare(alloc)?;
    Ok(MachineSession::new(alloc, machine, spare))
}

/// Runs a request.
fn ask(
    session: &mut MachineSession<PlainDrive>,
    shelf: &mut MemShelf,
    request: &Request,
) -> Option<Result<(), Code>>
    requires { HasTries request.now }
{
    answer(session.run(shelf, request))
}

/// Serves a call of INT 13h.
fn serve(session: &mut MachineSession<PlainDrive>, front: &mut Int13, regs: Regs) -> Regs {
    session.int13(front, regs)
}

/// Ends a session.
fn end(session: &mut MachineSession<PlainDrive>, shelf: &mut MemShelf) -> bool {
    session.end(shelf).is_ok()
}

/// Puts the disk of the shelf, which has this name, into bay 0.
fn insert(session: &mut MachineSession<PlainDrive>, shelf: &mut MemShelf, name: Name) -> bool {
    ask(session, shelf, &Request::Insert { bay: 0, name }) == Some(Ok(()))
}

/// Acknowledges the medium in bay 0.
fn acknowledge(session: &mut MachineSession<PlainDrive>, shelf: &mut MemShelf) -> bool {
    ask(session, shelf, &Request::Ack { bay: 0 }) == Some(Ok(()))
}

/// Reads the first sector.
fn read(
    session: &mut MachineSession<PlainDrive>,
    shelf: &mut MemShelf,
) -> Option<Result<(), Code>> {
    let key = Chrn {
        c: 0,
        h: 0,
        r: 1,
        n: 2,
    };
    let request = Request::Read {
        bay: 0,
        key,
        address: 0x10000,
    };
    ask(session, shelf, &request)
}

/// The last byte of the sector that a read puts to 10000, and the next byte in memory.
fn last_and_next(machine: &MachineOf<PlainDrive>) -> (u8, u8) {
    (machine.ram(0x101FF), machine.ram(0x10200))
}

/// A read is refused until the medium is acknowledged.
fn acknowledges_and_reads(session: &mut MachineSession<PlainDrive>, shelf: &mut MemShelf) -> bool {
    let is_refused = read(session, shelf) == Some(Err(Code::Changed));
    let is_acknowledged = acknowledge(session, shelf);
    let is_read = read(session, shelf) == Some(Ok(()));
    is_refused && is_acknowledged && is_read
}

/// The results of a session of requests. A session is large, so it is used in functions where nothing can fail.
#[derive(Clone, Copy)]
struct SessionResults {
    inserted: bool,
    read: bool,
    data_commands: u64,
    ended: bool,
    bytes: (u8, u8),
}

/// Runs the requests and ends the session.
fn run(session: MachineSession<PlainDrive>, shelf: &mut MemShelf, name: Name) -> SessionResults {
    let mut session = session;
    let inserted = insert(&mut session, shelf, name);
    let read = acknowledges_and_reads(&mut session, shelf);
    let data_commands = session.machine().data_commands();
    let ended = end(&mut session, shelf);
    SessionResults {
        inserted,
        read,
        data_commands,
        ended,
        bytes: last_and_next(&session.into_machine()),
    }
}

#[test]
fn a_session_runs_requests_and_ends(rt: HostRuntime) -> Result<(), Fail> {
    let alloc = rt.alloc();
    let mut shelf = shelf_with_disk(alloc, "")?;
    let name = Name::copy(alloc, "a.rt")?;
    let ended = run(new_session(alloc)?, &mut shelf, name);
    assert!(rt; ended.inserted && ended.read);
    assert!(rt; ended.data_commands == 3);
    assert!(rt; ended.ended);
    assert!(rt; ended.bytes == (0xF6, 0x00));
    Ok(())
}

/// A call that reads the first sector to 10000.
const READ: Regs = Regs {
    ax: 0x0201,
    bx: 0x0000,
    cx: 0x0001,
    dx: 0x0000,
    es: 0x1000,
    carry: false,
};

/// The results of two such calls, one after the other.
#[derive(Clone, Copy)]
struct Served {
    inserted: bool,
    first: Regs,
    second: Regs,
    bytes: (u8, u8),
}

/// Serves both calls and ends the session.
fn serve_twice(session: MachineSession<PlainDrive>, shelf: &mut MemShelf, name: Name) -> Served {
    let mut session = session;
    let inserted = insert(&mut session, shelf, name);
    let mut front = Int13::new();
    let first = serve(&mut session, &mut front, READ);
    let second = serve(&mut session, &mut front, READ);
    Served {
        inserted,
        first,
        second,
        bytes: last_and_next(&session.into_machine()),
    }
}

#[test]
fn a_session_serves_calls(rt: HostRuntime) -> Result<(), Fail> {
    let alloc = rt.alloc();
    let mut shelf = shelf_with_disk(alloc, "")?;
    let name = Name::copy(alloc, "a.rt")?;
    let served = serve_twice(new_session(alloc)?, &mut shelf, name);
    assert!(rt; served.inserted);
    // The bay isn't acknowledged yet, and a call that acknowledges it transfers nothing.
    assert!(rt; served.first.ax == 0x0600 && served.first.carry);
    assert!(rt; served.second == Regs { ax: 0x0001, ..READ });
    assert!(rt; served.bytes == (0xF6, 0x00));
    Ok(())
}
