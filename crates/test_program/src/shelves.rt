// Shelves with a formatted disk.
use memory_files::MemShelf;
use std::alloc::{AllocError, Global};
use std::test::Fail;
use test_files::{Draft, LineWords, follow};

/// The words of a text.
pub(crate) fn words(alloc: Global, text: &str) -> Result<Vec<String>, AllocError> {
    let mut words = Vec::new(alloc);
    for word in text.split_whitespace() {
        words.push(String::from_str(alloc, word)?)?;
    }
    Ok(words)
}

/// The image of a formatted disk of 250 kbit/s, of one cylinder.
fn disk(alloc: Global) -> Option<Draft> {
    let mut disk = Draft::new(alloc);
    let cylinders_and_rate = ["1", "250"];
    follow(&mut disk, "disk", LineWords::of(&cylinders_and_rate)).ok()?;
    Some(disk)
}

/// A shelf with that disk, and a job.
pub(crate) fn shelf_with_disk(alloc: Global, job: &str) -> Result<MemShelf, Fail> {
    let disk = disk(alloc).ok_or("a disk is made")?;
    let mut shelf = MemShelf::new(alloc, Vec::new(alloc));
    shelf.put_file("a.rt", disk.bytes())?;
    shelf.put_file("job", job.as_bytes())?;
    Ok(shelf)
}
