// The drive of a bay. A planned fault comes once, the drive keeps a map of the tracks that were written, and its cable
// is pulled and put in again.
use crate::trouble::Trouble;
use std::alloc::{AllocError, Global};
use std::io;
use telwyddus::controller::{BayDrive, Drive, Fault, Inspect};
use telwyddus::disk::Medium;

/// The words of a track of the medium here.
const WORDS: u16 = 64;

/// What is written on track 0.
const WORD: u16 = 0x5A5A;

/// The device steps in which a medium comes to speed.
const SPIN_UP: u32 = 6250;

/// One word of track 0 drops out once, and the first inward pulse from cylinder 0 is lost.
fn faults(alloc: Global) -> Result<Vec<Fault>, AllocError> {
    let mut faults = Vec::new(alloc);
    faults.push(Fault::Dropout {
        c: 0,
        h: 0,
        word: 3,
        count: 1,
    })?;
    faults.push(Fault::Lose { c: 0, count: 1 })?;
    Ok(faults)
}

/// Writes each word of track 0.
fn write_track(drive: &mut BayDrive) {
    drive.gate(true);
    for _place in 0..WORDS {
        let _index = drive.write_word(0, WORD);
    }
    drive.gate(false);
}

/// How many words of a revolution aren't heard as they were written.
fn missed(drive: &mut BayDrive) -> u16 {
    let mut missed: u16 = 0;
    for _place in 0..WORDS {
        if drive.listen(0).turn.word != WORD {
            missed = missed.saturating_add(1);
        }
    }
    missed
}

/// The first byte of the map of written tracks. The map is empty afterwards.
fn first_tracks(drive: &mut BayDrive) -> u8 {
    drive.take_tracks().array()[0]
}

/// An inward pulse. Gives the cylinder under the heads afterwards.
fn pulsed(drive: &mut BayDrive) -> u8 {
    drive.pulse(true);
    drive.cylinder()
}

fn print_heard(rt: &impl Print, drive: &mut BayDrive) -> io::Result<()> {
    let first = missed(drive);
    let second = missed(drive);
    let faults = drive.faults();
    println!(rt; "{first} word drops out, then {second}: faults {faults}")?;
    let before = first_tracks(drive);
    let after = first_tracks(drive);
    println!(rt; "the map of written tracks begins with {before:02X}, then with {after:02X}")
}

fn print_pulses(rt: &impl Print, drive: &mut BayDrive) -> io::Result<()> {
    let first = pulsed(drive);
    let second = pulsed(drive);
    println!(rt; "a pulse leads to cylinder {first}, the next one to {second}")
}

/// The cable is pulled: no pulse reaches the heads, and no word is heard.
fn print_pulled(rt: &impl Print, drive: BayDrive) -> io::Result<()> {
    let mut pulled = drive.with_cable(false);
    pulled.pulse(false);
    let lost = pulled.faults();
    let missed = missed(&mut pulled);
    println!(rt; "the cable is pulled: {lost} pulse is lost, and {missed} words aren't heard")?;
    let attached = pulled.with_cable(true);
    let cylinder = attached.cylinder();
    let faults = attached.faults();
    println!(rt; "the cable is in: cylinder {cylinder}, faults {faults}")
}

pub(crate) fn run(rt: &(impl Print + AllocGlobal)) -> Result<(), Trouble> {
    let alloc = rt.alloc();
    let mut drive = BayDrive::new(faults(alloc)?);
    // An empty bay takes the medium.
    let _refused = drive.insert(Medium::blank(alloc, 2, 1, WORDS)?);
    drive.motor(true);
    drive.let_pass(SPIN_UP);
    write_track(&mut drive);
    print_heard(rt, &mut drive)?;
    print_pulses(rt, &mut drive)?;
    Ok(print_pulled(rt, drive)?)
}
