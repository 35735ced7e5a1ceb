// The strap for step times. What SENSE INTERRUPT gives is the same with the strap and without, for two seeks. One is a
// SEEK that comes right after a reset; the other is a RECALIBRATE from farther in than its pulses go.
use crate::guest::{Controller, send};
use crate::trouble::Trouble;
use std::alloc::Global;
use std::io;
use telwyddus::NoMemory;
use telwyddus::controller::{Chip, PlainDrive};

const DOR: u16 = 0x3F2;

const DATA: u16 = 0x3F5;

/// The number of device steps within which each seek here ends. A pulse takes 1,000.
const MOST_STEPS: u32 = 100_000;

/// ST0 and the cylinder number of SENSE INTERRUPT.
#[derive(Clone, Copy)]
struct Sensed {
    status: u8,
    cylinder: u8,
}

/// What is reported from a reset on.
#[derive(Clone, Copy)]
struct Told {
    /// INT after the first device step.
    int: bool,
    /// ST0 of each drive's poll.
    polls: [u8; 4],
    /// The result of a SEEK to cylinder 3, which was sent before that step.
    near: Sensed,
    /// The results of a SEEK to cylinder 82, and of two RECALIBRATEs from there.
    far: Sensed,
    first: Sensed,
    second: Sensed,
}

fn sense(controller: &mut Controller) -> Sensed {
    send(controller, &[0x08]);
    let status = controller.read(DATA);
    let cylinder = controller.read(DATA);
    Sensed { status, cylinder }
}

/// Runs a seek, and gives its result.
fn seek(controller: &mut Controller, command: &[u8]) -> Sensed {
    send(controller, command);
    controller.run(MOST_STEPS);
    sense(controller)
}

fn tell(alloc: Global, strap: bool) -> Result<Told, NoMemory> {
    let mut controller = Chip::new(alloc, PlainDrive::new(), PlainDrive::new())?;
    controller.strap_steps(strap);
    controller.write(DOR, 0x1C);
    send(&mut controller, &[0x0F, 0x00, 0x03]);
    controller.step();
    let int = controller.int();
    let mut polls = [0; 4];
    for poll in polls.iter_mut() {
        *poll = sense(&mut controller).status;
    }
    controller.run(MOST_STEPS);
    let near = sense(&mut controller);
    let far = seek(&mut controller, &[0x0F, 0x00, 82]);
    let first = seek(&mut controller, &[0x07, 0x00]);
    let second = seek(&mut controller, &[0x07, 0x00]);
    Ok(Told {
        int,
        polls,
        near,
        far,
        first,
        second,
    })
}

fn print_seek(rt: &impl Print, name: &str, sensed: &Sensed) -> io::Result<()> {
    let Sensed { status, cylinder } = sensed;
    println!(rt; "{name} {status:02X} {cylinder:02X}")
}

fn print_told(rt: &impl Print, strap: bool, told: &Told) -> io::Result<()> {
    let int = told.int;
    println!(rt; "the strap for step times {strap}")?;
    print!(rt; "a reset, with INT {int}, and polls")?;
    for poll in told.polls.iter() {
        print!(rt; " {poll:02X}")?;
    }
    println!(rt; "")?;
    print_seek(rt, "SEEK after a reset", &told.near)?;
    print_seek(rt, "SEEK of cylinder 82", &told.far)?;
    print_seek(rt, "RECALIBRATE, 79 pulses", &told.first)?;
    print_seek(rt, "RECALIBRATE again", &told.second)
}

/// Runs the controller without the strap, and then with it.
pub(crate) fn run(rt: &(impl Print + AllocGlobal)) -> Result<(), Trouble> {
    let alloc = rt.alloc();
    let without = tell(alloc, false)?;
    print_told(rt, false, &without)?;
    let with = tell(alloc, true)?;
    print_told(rt, true, &with)?;
    Ok(())
}
