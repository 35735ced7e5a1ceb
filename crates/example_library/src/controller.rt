// Runs the controller at its ports, with a drive that loses a word twice. The controller is taken out of reset, and
// then gets RECALIBRATE, READ ID, and READ ID again. The bytes of its results are printed.
use crate::trouble::Trouble;
use std::alloc::Global;
use std::io;
use telwyddus::controller::{DisketteAdapter, Fault, ScriptDrive};
use telwyddus::disk::Medium;
use telwyddus::track::fill_layout;
use telwyddus::{Chrn, NoMemory};

type Adapter = DisketteAdapter<ScriptDrive>;

/// A disk of one track at 500 kbit/s, with one sector of 256 bytes: cylinder 0, head 0, record 5.
fn disk(alloc: Global) -> Result<Medium, NoMemory> {
    let key = Chrn {
        c: 0,
        h: 0,
        r: 5,
        n: 1,
    };
    let mut track = vec![in alloc; 0; 500]?;
    fill_layout(track.as_mut_slice(), &[key], 1, 27, 0xF6);
    let mut medium = Medium::blank(alloc, 1, 1, 500)?;
    medium.set_words(0, 0, 0, &track);
    Ok(medium)
}

/// The controller, still in reset, with the disk in its first drive. That drive loses the first of the three A1 before
/// the address field, twice. It is word 158 of the track: before it are 80 bytes of gap 4a, 12 of sync, 4 of the index
/// mark, 50 of gap 1 and 12 of sync.
fn adapter(alloc: Global) -> Result<Adapter, NoMemory> {
    let lost = Fault::Dropout {
        c: 0,
        h: 0,
        word: 158,
        count: 2,
    };
    let disk = disk(alloc)?;
    let first = ScriptDrive::new(vec![in alloc; lost]?);
    let second = ScriptDrive::new(Vec::new(alloc));
    let mut adapter = DisketteAdapter::new(alloc, first, second)?;
    // An empty bay takes the disk.
    let _refused = adapter.insert(0, disk);
    Ok(adapter)
}

/// Sends the bytes of a command.
fn send(adapter: &mut Adapter, bytes: &[u8]) {
    for byte in bytes {
        adapter.write(0x3F5, *byte);
    }
}

/// Sends SENSE INTERRUPT STATUS, and reads ST0 and the cylinder number.
fn sense(adapter: &mut Adapter) -> [u8; 2] {
    send(adapter, &[0x08]);
    [adapter.read(0x3F5), adapter.read(0x3F5)]
}

/// Sends READ ID, and reads its seven results.
fn read_id(adapter: &mut Adapter) -> [u8; 7] {
    send(adapter, &[0x4A, 0x00]);
    adapter.run(65_536);
    let mut results = [0; 7];
    for result in results.iter_mut() {
        *result = adapter.read(0x3F5);
    }
    results
}

/// What the controller reported.
#[derive(Clone, Copy)]
struct Told {
    reset: u32,
    sensed: [[u8; 2]; 4],
    recalibrated: u32,
    ended: [u8; 2],
    identified: [[u8; 7]; 2],
}

/// Takes the controller out of reset, with the motor of drive 0 on, at 500 kbit/s, and sends the commands.
fn use_ports(adapter: &mut Adapter) -> Told {
    adapter.write(0x3F2, 0x1C);
    adapter.write(0x3F7, 0x00);
    let reset = adapter.run(100);
    let sensed = [
        sense(adapter),
        sense(adapter),
        sense(adapter),
        sense(adapter),
    ];
    send(adapter, &[0x07, 0x00]);
    let recalibrated = adapter.run(100);
    Told {
        reset,
        sensed,
        recalibrated,
        ended: sense(adapter),
        identified: [read_id(adapter), read_id(adapter)],
    }
}

/// Makes the controller and runs it. The controller is large, so it lives only in functions in which nothing can go
/// wrong and no line is printed.
fn set_up_and_run(alloc: Global) -> Result<Told, NoMemory> {
    let mut adapter = adapter(alloc)?;
    Ok(use_ports(&mut adapter))
}

fn print_id(rt: &impl Print, results: &[u8]) -> io::Result<()> {
    print!(rt; "read id")?;
    for byte in results {
        print!(rt; " {byte:02X}")?;
    }
    println!(rt; "")
}

fn print_told(rt: &impl Print, told: &Told) -> io::Result<()> {
    // INT rises in the first step (docs/FORMATS.md, "Commands").
    let steps = told.reset;
    println!(rt; "reset {steps}")?;
    // The poll has a result of each drive: C0 and the drive's number. A reset has set the cylinder numbers to 0.
    for [st0, cylinder] in told.sensed {
        println!(rt; "sense {st0:02X} {cylinder:02X}")?;
    }
    // The heads are on cylinder 0, so no pulse is given, and INT rises in the first step. 20 says that a seek ended on
    // drive 0.
    let steps = told.recalibrated;
    let [st0, cylinder] = told.ended;
    println!(rt; "recalibrate {steps}, sense {st0:02X} {cylinder:02X}")?;
    // Once the disk is up to speed, the only address field passes twice without its mark. ST0 is then 40, and ST1 is
    // 01: no address mark. Then the field passes as it stands, with no error in ST0 to ST2, and with the sector ID of
    // `disk`.
    let [first, second] = told.identified;
    print_id(rt, &first)?;
    print_id(rt, &second)
}

/// Runs the controller.
pub(crate) fn run(rt: &(impl Print + AllocGlobal)) -> Result<(), Trouble> {
    let told = set_up_and_run(rt.alloc())?;
    print_told(rt, &told)?;
    Ok(())
}
