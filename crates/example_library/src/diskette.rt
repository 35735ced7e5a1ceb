// Runs the library on one diskette. A flat file makes its medium. A read of several sectors is saved in its middle and
// goes on twice, and two sectors are written. A desk writes and reads a single sector, and the program takes the file
// in on a shelf. What comes out as it should is printed.
use crate::files::{flat_bytes, must_give, replace};
use crate::guest::{
    Controller, GuestRead, dump, end, give_all, read_on, rest, results, send, set_up,
};
use crate::tools::{use_desk, use_shelf};
use crate::trouble::{Trouble, must};
use std::alloc::Global;
use std::io;
use telwyddus::disk::{Medium, flat_medium};
use telwyddus::{restore_state, save_state};

/// READ DATA with MT, MFM and SK, from cylinder 0, head 0, record 17 on, of 512 bytes. EOT is 18, so records 1 and 2 of
/// head 1 come after record 18.
const READ: [u8; 9] = [0xE6, 0x00, 0, 0, 17, 2, 18, 0x1B, 0xFF];

/// WRITE DATA with MT and MFM, from record 18 on. Record 1 of head 1 comes after it.
const WRITE: [u8; 9] = [0xC5, 0x00, 0, 0, 18, 2, 18, 0x1B, 0xFF];

/// READ DATA of 16,384 bytes, which no field of a medium has.
const REFUSED: [u8; 9] = [0x46, 0x00, 0, 0, 1, 7, 18, 0x1B, 0xFF];

/// Makes the medium of a flat file, and checks that the medium gives the file back.
fn medium_of(alloc: Global, flat: &[u8]) -> Result<Medium, Trouble> {
    let medium = flat_medium(alloc, flat)?;
    must_give(alloc, &medium, flat)?;
    Ok(medium)
}

/// Another controller in the same state. It has the command that is under way, and a medium of its own.
fn twin_of(alloc: Global, controller: &Controller) -> Result<Controller, Trouble> {
    let state = save_state(alloc, controller)?;
    let twin: Controller = restore_state(alloc, &state)?;
    Ok(twin)
}

/// The results of a read, at the controller that began it and at its twin.
type TwoResults = ([u8; 7], [u8; 7]);

/// Reads four sectors with one command. The state is saved after 700 bytes, and the command goes on at two controllers.
/// Gives the results of both.
///
/// From the last byte of the command to its results, drive 0 is selected, its motor is on, and the rate stays the same.
/// The medium is in and at speed, under heads that stay over one cylinder. No word of it is lost or replaced. So this
/// run meets the premise of the law on such a read (`laws_chip`), which is that the medium stays in. The law says
/// that what the read gives stands on the medium.
fn read_four(
    alloc: Global,
    controller: &mut Controller,
    flat: &[u8],
) -> Result<TwoResults, Trouble> {
    send(controller, &READ);
    // The medium is still on its way to the sector, so the next step changes no line.
    must(controller.quiet(1) == 1)?;
    let begun = read_on(alloc, controller, &[], 700)?;
    if begun.stayed {
        go_on_twice(alloc, controller, &begun.bytes, flat)
    } else {
        Err(Trouble::Differs)
    }
}

/// Goes on with the read of which these bytes have passed, at this controller and at its twin.
fn go_on_twice(
    alloc: Global,
    controller: &mut Controller,
    passed: &[u8],
    flat: &[u8],
) -> Result<TwoResults, Trouble> {
    let mut twin = twin_of(alloc, controller)?;
    let gone_on = go_on_alike(alloc, controller, &mut twin, passed, flat);
    match gone_on {
        Ok(true) => Ok((results(controller), results(&mut twin))),
        Ok(false) => Err(Trouble::Differs),
        Err(trouble) => Err(trouble),
    }
}

/// Whether both controllers end the read of which these bytes have passed in the same way, with the file's bytes.
fn go_on_alike(
    alloc: Global,
    controller: &mut Controller,
    twin: &mut Controller,
    passed: &[u8],
    flat: &[u8],
) -> Result<bool, Trouble> {
    let first = read_on(alloc, controller, passed, usize::MAX)?;
    let second = read_on(alloc, twin, passed, usize::MAX)?;
    Ok(are_alike(&first, &second, flat))
}

/// Records 17 and 18 of head 0, and then records 1 and 2 of head 1, begin at (17 - 1) * 512.
fn are_alike(first: &GuestRead, second: &GuestRead, flat: &[u8]) -> bool {
    let stayed = first.stayed && second.stayed;
    let alike = first.bytes == second.bytes && first.lines == second.lines;
    stayed && alike && flat.get(8_192..10_240) == Some(first.bytes.as_slice())
}

/// Writes two sectors with one command, and gives its results.
fn write_two(alloc: Global, controller: &mut Controller, flat: &[u8]) -> Result<[u8; 7], Trouble> {
    // The content of two sectors of cylinder 40. Each of its bytes differs from the byte that it replaces.
    let Some(given) = flat.get(737_280..738_304) else {
        return Err(Trouble::Differs);
    };
    send(controller, &WRITE);
    give_all(controller, given);
    // Record 18 of head 0 begins at (18 - 1) * 512, and record 1 of head 1 stands right behind it. All else is as it
    // was.
    let mut wanted = Vec::from_slice(alloc, flat)?;
    replace(&mut wanted, 8_704, given);
    must_hold(alloc, controller, &wanted)?;
    Ok(results(controller))
}

/// Checks that the medium in drive 0 was written, and that its flat file is this one.
fn must_hold(alloc: Global, controller: &Controller, flat: &[u8]) -> Result<(), Trouble> {
    must(controller.is_written(0))?;
    match controller.medium(0) {
        Some(medium) => must_give(alloc, medium, flat),
        None => Err(Trouble::Differs),
    }
}

/// What came of everything that is done at the controller.
#[derive(Clone, Copy)]
struct Told {
    quiet: u32,
    read: [u8; 7],
    read_by_twin: [u8; 7],
    written: [u8; 7],
    refused: [u8; 7],
    registers: [u8; 10],
}

/// Does everything that is done at the controller.
fn use_controller(
    alloc: Global,
    controller: &mut Controller,
    flat: &[u8],
) -> Result<Told, Trouble> {
    let quiet = rest(controller)?;
    let (read, read_by_twin) = read_four(alloc, controller, flat)?;
    let written = write_two(alloc, controller, flat)?;
    let refused = end(controller, &REFUSED)?;
    Ok(Told {
        quiet,
        read,
        read_by_twin,
        written,
        refused,
        registers: dump(controller),
    })
}

/// Does everything but the shelf. Gives what came of it at the controller, and whether the sector at the desk is marked
/// deleted. A controller is large, so it lives only in few functions, in which nothing else can go wrong and no line is
/// printed.
fn work(alloc: Global, flat: &[u8]) -> Result<(Told, bool), Trouble> {
    let medium = medium_of(alloc, flat)?;
    let (told, medium) = at_controller(alloc, medium, flat)?;
    Ok((told, use_desk(alloc, medium)?))
}

/// Makes a controller with this medium and uses it. Gives the medium as it is afterwards.
fn at_controller(
    alloc: Global,
    medium: Medium,
    flat: &[u8],
) -> Result<(Told, Option<Medium>), Trouble> {
    let mut controller = set_up(alloc, medium)?;
    match use_controller(alloc, &mut controller, flat) {
        Ok(told) => Ok((told, controller.eject(0))),
        Err(trouble) => Err(trouble),
    }
}

fn print_results(rt: &impl Print, told: &[u8]) -> io::Result<()> {
    print!(rt; "results")?;
    for byte in told {
        print!(rt; " {byte:02X}")?;
    }
    println!(rt; "")
}

fn print_told(rt: &impl Print, told: &Told, deleted: bool) -> io::Result<()> {
    println!(rt; "a flat file makes a medium, which gives it back")?;
    // Nothing runs, though the motor is on. So the number is all the steps that were asked for.
    let quiet = told.quiet;
    println!(rt; "no line changes in {quiet} device steps")?;
    println!(rt; "READ DATA of four sectors is saved after 700 bytes, and restored")?;
    println!(rt; "both give the bytes of the file, with INT and DRQ alike")?;
    println!(rt; "drive and medium stay, as is seen at each step")?;
    // Head 1, and no error. The sector ID is the one after record 2 of head 1.
    print_results(rt, &told.read)?;
    print_results(rt, &told.read_by_twin)?;
    println!(rt; "WRITE DATA of two sectors changes no others")?;
    // Head 1, and no error. The sector ID is the one after record 1 of head 1.
    print_results(rt, &told.written)?;
    // Address marks pass, and no sector has this size. So ND is set, and the sector ID is as it was sent.
    println!(rt; "READ DATA of size code 7 ends with INT")?;
    print_results(rt, &told.refused)?;
    // Each drive counts as at cylinder 0. There was no SPECIFY, EOT is 18, LOCK is not set, the FIFO is off, and PRETRK
    // is 0.
    println!(rt; "DUMPREG gives ten bytes")?;
    print_results(rt, &told.registers)?;
    println!(rt; "a desk writes a sector and reads it back, deleted {deleted}")
}

/// Runs everything on one diskette.
pub(crate) fn run(rt: &(impl Print + AllocGlobal)) -> Result<(), Trouble> {
    let alloc = rt.alloc();
    let flat = flat_bytes(alloc)?;
    let (told, deleted) = work(alloc, &flat)?;
    print_told(rt, &told, deleted)?;
    use_shelf(rt, alloc, &flat)
}
