// Single sectors at a desk, and the program on files in memory.
use crate::trouble::{Trouble, must};
use std::alloc::Global;
use telwyddus::Chrn;
use telwyddus::disk::Medium;
use telwyddus::driver::SectorDesk;
use telwyddus::program::{RunShelf, Status, split_words};

/// The last sector of a 1.44 MB diskette, of 512 bytes.
const KEY: Chrn = Chrn {
    c: 79,
    h: 1,
    r: 18,
    n: 2,
};

/// A desk with this medium in its first bay. What is read and written at the desk goes through driver, ports,
/// controller and cells.
fn set_desk(alloc: Global, medium: Medium) -> Result<SectorDesk, Trouble> {
    let mut desk = SectorDesk::new(alloc)?;
    // An empty bay takes the medium.
    let _refused = desk.insert(0, medium);
    desk.acknowledge(0)?;
    Ok(desk)
}

/// Writes a sector of this medium at a desk and reads it back. Gives whether the sector is marked deleted.
pub(crate) fn use_desk(alloc: Global, medium: Option<Medium>) -> Result<bool, Trouble> {
    let Some(medium) = medium else {
        return Err(Trouble::Differs);
    };
    let mut desk = set_desk(alloc, medium)?;
    try_sector(&mut desk)
}

fn try_sector(desk: &mut SectorDesk) -> Result<bool, Trouble> {
    let given = [0x5A; 512];
    let mut found = [0; 512];
    desk.write(0, KEY, &given, false)?;
    let deleted = desk.read(0, KEY, &mut found)?;
    must(found.as_slice() == given.as_slice())?;
    Ok(deleted)
}

/// Runs the program with these arguments, which are separated by line feeds.
fn run(rt: &impl Print, alloc: Global, shelf: &mut RunShelf, words: &[u8]) -> Result<(), Trouble> {
    let words = split_words(alloc, words)?;
    match shelf.run(alloc, words.as_slice()) {
        Some(status) => show(rt, shelf.report(), status)?,
        None => return Err(Trouble::Failed),
    }
    shelf.forget_report(alloc);
    Ok(())
}

/// Prints what a run printed, and its exit status.
fn show(rt: &impl Print, report: &[u8], status: Status) -> Result<(), Trouble> {
    let Ok(report) = str::from_utf8(report) else {
        return Err(Trouble::Differs);
    };
    let number = status.number();
    print!(rt; "{report}")?;
    println!(rt; "status {number}")?;
    must(number == 0)
}

/// Puts a flat file on a shelf. The program makes a disk of it there, and reads each sector of the disk.
pub(crate) fn use_shelf(rt: &impl Print, alloc: Global, flat: &[u8]) -> Result<(), Trouble> {
    let mut shelf = RunShelf::new(alloc);
    shelf.put("in.flat", flat)?;
    // 80 cylinders of two heads have 2,880 sectors. Status 0 says that none of them is refused.
    run(rt, alloc, &mut shelf, b"import\nin.flat\ndisk.rt")?;
    run(rt, alloc, &mut shelf, b"verify\ndisk.rt")
}
