// A guest at the ports of the controller, with a DMA channel of its own.
use crate::trouble::{Trouble, must};
use std::alloc::Global;
use telwyddus::NoMemory;
use telwyddus::controller::{Chip, PlainDrive};
use telwyddus::disk::Medium;

/// The whole controller, with two drives that have no faults.
pub(crate) type Controller = Chip<PlainDrive>;

const DOR: u16 = 0x3F2;

const DATA: u16 = 0x3F5;

const CCR: u16 = 0x3F7;

/// The number of device steps within which each command here ends. A revolution of the disk has 12,500.
const MOST_STEPS: u32 = 100_000;

/// The number of device steps in a second at 500 kbit/s.
const SECOND: u32 = 62_500;

/// The number of bytes after which the channel of a read signals the terminal count.
const FOUR_SECTORS: usize = 2048;

/// A controller that awaits commands, with this medium at speed in drive 0, and the heads over cylinder 0.
pub(crate) fn set_up(alloc: Global, medium: Medium) -> Result<Controller, Trouble> {
    let mut controller = Chip::new(alloc, PlainDrive::new(), PlainDrive::new())?;
    // An empty bay takes the medium.
    let _refused = controller.insert(0, medium);
    start(&mut controller);
    Ok(controller)
}

/// Takes the controller out of reset, with drive 0 selected and its motor on, at 500 kbit/s.
fn start(controller: &mut Controller) {
    controller.write(DOR, 0x1C);
    controller.write(CCR, 0x00);
    // INT follows the reset, and SENSE INTERRUPT gives a result of each drive. RECALIBRATE ends with INT too.
    controller.run(100);
    for _drive in 0..4 {
        sense(controller);
    }
    send(controller, &[0x07, 0x00]);
    controller.run(100);
    sense(controller);
    // The medium is at speed 6,250 word times after the motor was turned on. No line changes meanwhile.
    controller.run(6_250);
}

/// Lets a second pass in which nothing is called. Gives in how many of its device steps no line surely changes. The
/// steps are made, and no line changes in any.
pub(crate) fn rest(controller: &mut Controller) -> Result<u32, Trouble> {
    let quiet = controller.quiet(SECOND);
    must(controller.run(SECOND) == SECOND)?;
    Ok(quiet)
}

/// Sends SENSE INTERRUPT, and reads its two results.
fn sense(controller: &mut Controller) {
    send(controller, &[0x08]);
    controller.read(DATA);
    controller.read(DATA);
}

/// Sends the bytes of a command.
pub(crate) fn send(controller: &mut Controller, bytes: &[u8]) {
    for byte in bytes {
        controller.write(DATA, *byte);
    }
}

/// The seven result bytes of a command that has ended.
pub(crate) fn results(controller: &mut Controller) -> [u8; 7] {
    let mut results = [0; 7];
    for result in results.iter_mut() {
        *result = controller.read(DATA);
    }
    results
}

/// The ten bytes of DUMPREG.
pub(crate) fn dump(controller: &mut Controller) -> [u8; 10] {
    send(controller, &[0x0E]);
    let mut registers = [0; 10];
    for register in registers.iter_mut() {
        *register = controller.read(DATA);
    }
    registers
}

/// Runs a command that ends with INT, whatever it finds.
pub(crate) fn end(controller: &mut Controller, command: &[u8]) -> Result<[u8; 7], Trouble> {
    send(controller, command);
    controller.run(100_000);
    must(controller.int())?;
    Ok(results(controller))
}

/// A read that is under way: what the channel took, and what was seen between device steps.
#[derive(Drop)]
pub(crate) struct GuestRead {
    pub bytes: Vec<u8>,
    /// INT and DRQ, one after the other.
    pub lines: Vec<bool>,
    /// Whether drive and medium stayed as `set_up` left them.
    pub stayed: bool,
}

/// Goes on with a read of which these bytes have passed, step by step. Stops once this many bytes have passed, or once
/// INT says that there are results.
pub(crate) fn read_on(
    alloc: Global,
    controller: &mut Controller,
    passed: &[u8],
    most: usize,
) -> Result<GuestRead, NoMemory> {
    let mut reading = GuestRead {
        bytes: Vec::from_slice(alloc, passed)?,
        lines: Vec::new(alloc),
        stayed: true,
    };
    for _step in 0..MOST_STEPS {
        if !reading.goes_on(controller, most)? {
            break;
        }
        controller.step();
    }
    Ok(reading)
}

impl GuestRead {
    /// Notes what is seen. Then the channel takes a byte, unless the read has ended or enough bytes have passed.
    fn goes_on(&mut self, controller: &mut Controller, most: usize) -> Result<bool, NoMemory> {
        self.look(controller)?;
        if controller.int() || self.bytes.len() >= most {
            return Ok(false);
        }
        self.take(controller)?;
        Ok(true)
    }

    /// Lets the channel take the byte that is asked for, if one is.
    fn take(&mut self, controller: &mut Controller) -> Result<(), NoMemory> {
        let Some(byte) = controller.dack_read() else {
            return Ok(());
        };
        self.bytes.push(byte)?;
        if self.bytes.len() == FOUR_SECTORS {
            controller.tc();
        }
        Ok(())
    }

    /// Notes the lines, and whether drive and medium are as before.
    fn look(&mut self, controller: &Controller) -> Result<(), NoMemory> {
        self.lines.push(controller.int())?;
        self.lines.push(controller.drq())?;
        if !is_turning(controller) || !has_medium(controller) {
            self.stayed = false;
        }
        Ok(())
    }
}

/// Whether drive 0 is selected, its motor is on, and the rate is 500 kbit/s, at which a word time has 16,000
/// nanoseconds.
fn is_turning(controller: &Controller) -> bool {
    controller.selected() == 0 && controller.is_motor_on(0) && controller.word_time() == 16_000
}

/// Whether the medium is in, under heads over cylinder 0, and none of its words was replaced.
fn has_medium(controller: &Controller) -> bool {
    controller.medium(0).is_some() && controller.cylinder(0) == 0 && !controller.is_written(0)
}

/// Lets the channel give these bytes as they are asked for, step by step, until INT says that there are results.
pub(crate) fn give_all(controller: &mut Controller, bytes: &[u8]) {
    let mut given = 0;
    for _step in 0..MOST_STEPS {
        if controller.int() {
            break;
        }
        given = give(controller, bytes, given);
        controller.step();
    }
}

/// Gives the next byte, if one is asked for, and the terminal count with the last byte. The result is how many bytes
/// were given.
fn give(controller: &mut Controller, bytes: &[u8], given: usize) -> usize {
    let Some(byte) = bytes.get(given) else {
        return given;
    };
    if !controller.dack_write(*byte) {
        return given;
    }
    let given = given.saturating_add(1);
    if given == bytes.len() {
        controller.tc();
    }
    given
}
