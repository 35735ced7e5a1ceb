// Shelves and sinks: those in memory, whose calls with given numbers fail, and those of the system.
use crate::calls::{gives, gives_none, has_faults, same, takes, takes_none};
use flop_base::{Bytes, Chrn, Code, LoadError, Name, PutError, Sink, Status, sector_size};
use flop_outside::{FileShelf, StreamSink};
use memory_files::{MemShelf, MemSink};
use std::fs;
use std::fs::{OpenOptions, Permissions};
use std::os::unix::fs::PermissionsExt;
use std::process::Abort;
use std::rt::Files;
use std::test::Fail;

#[test]
fn numbers_are_those_of_the_bios_and_the_program(rt: HostRuntime) {
    let codes = [
        (Code::BadRequest, 0x01),
        (Code::NoMark, 0x02),
        (Code::Protected, 0x03),
        (Code::NotFound, 0x04),
        (Code::Changed, 0x06),
        (Code::Overrun, 0x08),
        (Code::Page, 0x09),
        (Code::BadCrc, 0x10),
        (Code::Seek, 0x40),
        (Code::NotReady, 0x80),
    ];
    for (code, number) in codes {
        same(&rt, &code.number(), &number);
    }
    same(&rt, &Status::SinkFault.number(), &8);
    same(&rt, &sector_size(2), &512);
}

#[test]
fn keys_are_equal_where_their_numbers_are(rt: HostRuntime) {
    let key = Chrn {
        c: 0,
        h: 1,
        r: 2,
        n: 3,
    };
    let other = Chrn {
        c: 0,
        h: 1,
        r: 2,
        n: 3,
    };
    same(&rt, &key, &other);
}

/// The file that a shelf in memory has under a name.
fn has_file(rt: &impl Abort, shelf: &MemShelf, name: &str, wanted: Option<&[u8]>) {
    assert!(rt; shelf.file(name) == wanted);
}

#[test]
fn a_shelf_keeps_files_and_its_numbered_calls_fail(rt: HostRuntime) -> Result<(), Fail> {
    let alloc = rt.alloc();
    let mut shelf = MemShelf::new(alloc, vec![in alloc; 2, 5]?);
    assert!(rt; shelf.put_file("a", b"one").is_ok());
    gives(&rt, alloc, &mut shelf, "a", b"one");
    gives_none(&rt, alloc, &mut shelf, "a", 3, LoadError::Failed);
    gives_none(&rt, alloc, &mut shelf, "a", 2, LoadError::TooLong);
    gives_none(&rt, alloc, &mut shelf, "b", 9, LoadError::Absent);
    takes_none(&rt, &mut shelf, "b", b"two");
    has_faults(&rt, &shelf, 2);
    takes(&rt, &mut shelf, "b", b"two");
    has_file(&rt, &shelf, "a", Some(b"one".as_slice()));
    has_file(&rt, &shelf, "b", Some(b"two".as_slice()));
    has_file(&rt, &shelf, "c", None);
    Ok(())
}

/// These bytes are printed, or printing fails with the wanted error.
fn puts(rt: &impl Abort, sink: &mut impl Sink, bytes: &[u8], refused: Option<PutError>) {
    same(rt, &sink.put(bytes).err(), &refused);
}

#[test]
fn a_sink_keeps_lines_in_order_and_its_numbered_calls_fail(rt: HostRuntime) -> Result<(), Fail> {
    let alloc = rt.alloc();
    let mut sink = MemSink::new(alloc, vec![in alloc; 2]?);
    puts(&rt, &mut sink, b"one ", None);
    puts(&rt, &mut sink, b"two ", Some(PutError::Failed));
    puts(&rt, &mut sink, b"three", None);
    assert!(rt; sink.bytes() == b"one three".as_slice());
    assert!(rt; sink.lengths() == [4usize, 5].as_slice());
    same(&rt, &sink.faults(), &1);
    let copy = Bytes::copy(alloc, sink.bytes())?;
    assert!(rt; copy.as_slice() == b"one three".as_slice());
    Ok(())
}

#[test]
fn a_name_is_copied(rt: HostRuntime) -> Result<(), Fail> {
    let name = Name::copy(rt.alloc(), "a.rt")?;
    assert!(rt; name.as_str() == "a.rt");
    Ok(())
}

/// Removes a file.
pub(crate) fn remove(rt: &(impl Abort + Files), name: &str) {
    assert!(rt; fs::remove_file(rt, name).is_ok());
}

#[test]
fn files_of_the_folder_are_stored_and_loaded(rt: HostRuntime) {
    let (alloc, name) = (rt.alloc(), "floppy-test-file");
    let mut shelf = FileShelf::new(&rt, rt.alloc());
    takes(&rt, &mut shelf, name, b"old");
    takes(&rt, &mut shelf, name, b"bytes");
    gives(&rt, alloc, &mut shelf, name, b"bytes");
    gives_none(&rt, alloc, &mut shelf, name, 4, LoadError::TooLong);
    remove(&rt, name);
    gives_none(&rt, alloc, &mut shelf, name, 5, LoadError::Absent);
    has_faults(&rt, &shelf, 0);
}

#[test]
fn a_folder_in_a_files_place_is_a_fault(rt: HostRuntime) {
    let name = "floppy-test-folder";
    let mut shelf = FileShelf::new(&rt, rt.alloc());
    assert!(rt; fs::create_dir(&rt, name).is_ok());
    gives_none(&rt, rt.alloc(), &mut shelf, name, 5, LoadError::Failed);
    takes_none(&rt, &mut shelf, name, b"bytes");
    assert!(rt; fs::remove_dir(&rt, name).is_ok());
    has_faults(&rt, &shelf, 2);
}

/// Whether this user may write a file whose permissions let nobody write.
fn may_write(rt: &(impl Abort + Files), name: &str) -> bool {
    let closed = fs::set_permissions(rt, name, Permissions::from_mode(0o444));
    assert!(rt; closed.is_ok());
    OpenOptions::new().write(true).open(rt, name).is_ok()
}

// The superuser may write any file. What the test wants therefore depends on whether this user may.
#[test]
fn a_file_that_may_not_be_written_is_not_replaced(rt: HostRuntime) {
    let name = "floppy-test-kept";
    let mut shelf = FileShelf::new(&rt, rt.alloc());
    takes(&rt, &mut shelf, name, b"old");
    let may = may_write(&rt, name);
    takes(&rt, &mut shelf, name, b"old");
    if may {
        takes(&rt, &mut shelf, name, b"new");
        gives(&rt, rt.alloc(), &mut shelf, name, b"new");
        has_faults(&rt, &shelf, 0);
    } else {
        takes_none(&rt, &mut shelf, name, b"new");
        gives(&rt, rt.alloc(), &mut shelf, name, b"old");
        has_faults(&rt, &shelf, 1);
    }
    remove(&rt, name);
}

// Another shelf stands for another program.
#[test]
fn what_another_program_changed_is_not_replaced(rt: HostRuntime) {
    let (alloc, name) = (rt.alloc(), "floppy-test-update");
    let mut other = FileShelf::new(&rt, alloc);
    takes(&rt, &mut other, name, b"old");
    let mut shelf = FileShelf::new(&rt, alloc);
    gives(&rt, alloc, &mut shelf, name, b"old");
    takes(&rt, &mut other, name, b"update");
    takes_none(&rt, &mut shelf, name, b"new");
    // What wasn't changed isn't stored, so the update stays.
    takes(&rt, &mut shelf, name, b"old");
    gives(&rt, alloc, &mut other, name, b"update");
    // The update itself may be stored once more.
    takes(&rt, &mut shelf, name, b"update");
    has_faults(&rt, &shelf, 1);
    remove(&rt, name);
}

#[test]
fn a_file_that_is_gone_is_stored_anew(rt: HostRuntime) {
    let (alloc, name) = (rt.alloc(), "floppy-test-gone");
    let mut shelf = FileShelf::new(&rt, alloc);
    takes(&rt, &mut shelf, name, b"old");
    remove(&rt, name);
    takes(&rt, &mut shelf, name, b"old");
    gives(&rt, alloc, &mut shelf, name, b"old");
    remove(&rt, name);
    takes(&rt, &mut shelf, name, b"new");
    gives(&rt, alloc, &mut shelf, name, b"new");
    remove(&rt, name);
}

// An image of the older version is stored in the newer one, unless this user may not write it.
#[test]
fn an_older_image_that_may_not_be_written_stays(rt: HostRuntime) {
    let (alloc, name) = (rt.alloc(), "floppy-test-older");
    let mut shelf = FileShelf::new(&rt, alloc);
    takes(&rt, &mut shelf, name, b"RTIMAGE1 words");
    let may = may_write(&rt, name);
    takes(&rt, &mut shelf, name, b"RTIMAGE2 words");
    let held: &[u8] = if may {
        b"RTIMAGE2 words"
    } else {
        b"RTIMAGE1 words"
    };
    gives(&rt, alloc, &mut shelf, name, held);
    has_faults(&rt, &shelf, 0);
    remove(&rt, name);
}

#[test]
fn a_file_that_was_not_loaded_is_kept_if_asked(rt: HostRuntime) {
    let (alloc, name) = (rt.alloc(), "floppy-test-precious");
    let mut other = FileShelf::new(&rt, alloc);
    takes(&rt, &mut other, name, b"precious");
    let mut shelf = FileShelf::new(&rt, alloc).keeping(true);
    takes_none(&rt, &mut shelf, name, b"new");
    gives(&rt, alloc, &mut other, name, b"precious");
    // Now that it was loaded it may be replaced, and so may a file that this run made.
    gives(&rt, alloc, &mut shelf, name, b"precious");
    takes(&rt, &mut shelf, name, b"new");
    takes(&rt, &mut shelf, "floppy-test-made", b"first");
    takes(&rt, &mut shelf, "floppy-test-made", b"second");
    has_faults(&rt, &shelf, 1);
    remove(&rt, name);
    remove(&rt, "floppy-test-made");
}

// Four files are known by their bytes. The two that were loaded before them are known by a digest.
#[test]
fn files_that_were_loaded_long_ago_are_known(rt: HostRuntime) {
    let (alloc, first, second) = (rt.alloc(), "floppy-test-first", "floppy-test-second");
    let mut other = FileShelf::new(&rt, alloc);
    takes(&rt, &mut other, first, b"old");
    takes(&rt, &mut other, second, b"RTIMAGE1 words");
    let mut shelf = FileShelf::new(&rt, alloc);
    gives(&rt, alloc, &mut shelf, first, b"old");
    gives(&rt, alloc, &mut shelf, second, b"RTIMAGE1 words");
    takes(&rt, &mut shelf, "floppy-test-third", b"3");
    takes(&rt, &mut shelf, "floppy-test-fourth", b"4");
    takes(&rt, &mut shelf, "floppy-test-fifth", b"5");
    takes(&rt, &mut shelf, "floppy-test-sixth", b"6");
    takes(&rt, &mut other, first, b"update");
    takes(&rt, &mut shelf, first, b"old");
    takes_none(&rt, &mut shelf, first, b"new");
    gives(&rt, alloc, &mut other, first, b"update");
    takes(&rt, &mut shelf, second, b"RTIMAGE2 words");
    gives(&rt, alloc, &mut other, second, b"RTIMAGE2 words");
    has_faults(&rt, &shelf, 1);
    remove(&rt, first);
    remove(&rt, second);
    remove(&rt, "floppy-test-third");
    remove(&rt, "floppy-test-fourth");
    remove(&rt, "floppy-test-fifth");
    remove(&rt, "floppy-test-sixth");
}

#[test]
fn standard_output_takes_all_bytes(rt: HostRuntime) {
    let mut sink = StreamSink::new(&rt);
    puts(&rt, &mut sink, b"a line\n", None);
    same(&rt, &sink.faults(), &0);
}
