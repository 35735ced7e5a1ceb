// Calls of shelves, each with what it must give. None of them returns anything to its caller, so that a test is a row
// of calls.
use flop_base::{LoadError, Shelf, StoreError};
use std::alloc::Global;
use std::fmt::Debug;
use std::process::Abort;

/// Both have to be equal.
pub(crate) fn same<T: PartialEq + Debug>(rt: &impl Abort, found: &T, wanted: &T) {
    assert!(rt; *found == *wanted, "{found:?}, and not {wanted:?}");
}

/// The file has these bytes. The load allows exactly as many.
pub(crate) fn gives(
    rt: &impl Abort,
    alloc: Global,
    shelf: &mut impl Shelf,
    name: &str,
    wanted: &[u8],
) {
    match shelf.load(alloc, name, wanted.len()) {
        Ok(bytes) => assert!(rt; bytes.as_slice() == wanted),
        Err(error) => panic!(rt; "{error:?}"),
    }
}

/// The load of this file fails with the wanted error.
pub(crate) fn gives_none(
    rt: &impl Abort,
    alloc: Global,
    shelf: &mut impl Shelf,
    name: &str,
    most: usize,
    wanted: LoadError,
) {
    same(rt, &shelf.load(alloc, name, most).err(), &Some(wanted));
}

/// These bytes are stored.
pub(crate) fn takes(rt: &impl Abort, shelf: &mut impl Shelf, name: &str, bytes: &[u8]) {
    same(rt, &shelf.store(name, bytes).err(), &None);
}

/// These bytes aren't stored, because of a fault.
pub(crate) fn takes_none(rt: &impl Abort, shelf: &mut impl Shelf, name: &str, bytes: &[u8]) {
    same(
        rt,
        &shelf.store(name, bytes).err(),
        &Some(StoreError::Failed),
    );
}

/// The wanted number of faults was counted.
pub(crate) fn has_faults(rt: &impl Abort, shelf: &impl Shelf, wanted: u64) {
    same(rt, &shelf.faults(), &wanted);
}
