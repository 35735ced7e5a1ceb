// The program over files in memory.
ghost use Rattle.std.specs.Prelude.{◌≡◌, ⊤};
ghost use Rattle.telwyddus_c.specs.Common.{file_at, outside_in, files_in};
ghost use Rattle.telwyddus_c.specs.Shelves.{IsBare, Puts, Gets, RunsWords, HandsOut};
ghost use Rattle.telwyddus_c.specs.Slots.{Fills, Frees, Moves, Serves};

use crate::buffer::write_bytes;
use crate::code::{DONE, EMPTY, FULL, NO_FILE, NO_MEMORY, NOT_TEXT};
use c_slots::ShelfSlot;
use memory_files::{RunShelf, WordsError, split_words};
use std::alloc::Global;

/// Makes a shelf with no file.
#[unsafe(no_mangle)]
pub extern "C" fn telwyddus_shelf_new(alloc: Global, slot: &mut ShelfSlot) -> u32
    ensures { Fills IsBare result slot.old.held.shelf slot.new.held.shelf }
{
    if slot.is_full() {
        return FULL;
    }
    let Ok(shelf) = Box::new(alloc, RunShelf::new(alloc)) else {
        return NO_MEMORY;
    };
    slot.put(shelf);
    DONE
}

/// Frees a shelf with its files.
#[unsafe(no_mangle)]
pub extern "C" fn telwyddus_shelf_free(alloc: Global, slot: &mut ShelfSlot) -> u32
    ensures { Frees result slot.old.held.shelf slot.new.held.shelf }
{
    match slot.take(alloc) {
        None => EMPTY,
        Some(_shelf) => DONE,
    }
}

/// Moves the shelf, with its files, into a slot that is empty.
#[unsafe(no_mangle)]
pub extern "C" fn telwyddus_shelf_move(
    alloc: Global,
    to: &mut ShelfSlot,
    from: &mut ShelfSlot,
) -> u32
    ensures { Moves result from.old.held.shelf from.new.held.shelf to.old.held.shelf to.new.held.shelf }
{
    if to.is_full() {
        return FULL;
    }
    let Some(shelf) = from.take(alloc) else {
        return EMPTY;
    };
    to.put(shelf);
    DONE
}

/// Places a file, in place of one of the same name.
#[unsafe(no_mangle)]
pub extern "C" fn telwyddus_shelf_put(
    alloc: Global,
    slot: &mut ShelfSlot,
    name: &[u8],
    bytes: &[u8],
) -> u32
    ensures { Serves (λ code old new. Puts name.now bytes.now code (outside_in old) (outside_in new)) ⊤
        result slot.old.held.shelf slot.new.held.shelf }
{
    let Some(mut shelf) = slot.take(alloc) else {
        return EMPTY;
    };
    let code = put(&mut shelf, name, bytes);
    slot.put(shelf);
    code
}

/// Places a file on a shelf.
fn put(shelf: &mut RunShelf, name: &[u8], bytes: &[u8]) -> u32
    ensures { Puts name.now bytes.now result (outside_in shelf.old) (outside_in shelf.new) }
{
    let Ok(name) = str::from_utf8(name) else {
        return NOT_TEXT;
    };
    match shelf.put(name, bytes) {
        Ok(()) => DONE,
        Err(_) => NO_MEMORY,
    }
}

/// Writes a file's bytes to the beginning of a buffer, and reports their number.
#[unsafe(no_mangle)]
pub extern "C" fn telwyddus_shelf_get(
    alloc: Global,
    slot: &mut ShelfSlot,
    name: &[u8],
    out: &mut [u8],
    length: &mut usize,
) -> u32
    ensures { Serves (λ code old new. (new ≡ old) × Gets name.now (file_at (files_in old) name.now) code out.old out.new length.old length.new)
        ((out.new ≡ out.old) × (length.new ≡ length.old)) result slot.old.held.shelf slot.new.held.shelf }
{
    let Some(shelf) = slot.take(alloc) else {
        return EMPTY;
    };
    let code = get(&shelf, name, out, length);
    slot.put(shelf);
    code
}

/// Writes the bytes of a shelf's file to a buffer.
fn get(shelf: &RunShelf, name: &[u8], out: &mut [u8], length: &mut usize) -> u32
    ensures { Gets name.now (file_at (files_in shelf.now) name.now) result out.old out.new length.old length.new }
{
    let Ok(name) = str::from_utf8(name) else {
        return NOT_TEXT;
    };
    match shelf.file(name) {
        None => NO_FILE,
        Some(bytes) => write_bytes(bytes, out, length),
    }
}

/// Runs the program with the words of a text, which line feeds separate, on a new machine whose drives have no faults.
/// Reports its exit status.
#[unsafe(no_mangle)]
pub extern "C" fn telwyddus_shelf_run(
    alloc: Global,
    slot: &mut ShelfSlot,
    text: &[u8],
    status: &mut u32,
) -> u32
    ensures { Serves (λ code old new. RunsWords text.now code status.old status.new (outside_in old) (outside_in new)) (status.new ≡ status.old)
        result slot.old.held.shelf slot.new.held.shelf }
{
    let Some(mut shelf) = slot.take(alloc) else {
        return EMPTY;
    };
    let code = run(alloc, &mut shelf, text, status);
    slot.put(shelf);
    code
}

/// Runs the program on a shelf.
fn run(alloc: Global, shelf: &mut RunShelf, text: &[u8], status: &mut u32) -> u32
    ensures { RunsWords text.now result status.old status.new (outside_in shelf.old) (outside_in shelf.new) }
{
    let words = match split_words(alloc, text) {
        Ok(words) => words,
        Err(WordsError::NotText) => return NOT_TEXT,
        Err(WordsError::NoMemory) => return NO_MEMORY,
    };
    let Some(ended) = shelf.run(alloc, words.as_slice()) else {
        return NO_MEMORY;
    };
    *status = u32::from(ended.number());
    DONE
}

/// Writes what runs printed since this was last asked to the beginning of a buffer, and reports the number of bytes.
/// What fitted is forgotten.
#[unsafe(no_mangle)]
pub extern "C" fn telwyddus_shelf_report(
    alloc: Global,
    slot: &mut ShelfSlot,
    out: &mut [u8],
    length: &mut usize,
) -> u32
    ensures { Serves (λ code old new. HandsOut code out.old out.new length.new old new) ((out.new ≡ out.old) × (length.new ≡ length.old))
        result slot.old.held.shelf slot.new.held.shelf }
{
    let Some(mut shelf) = slot.take(alloc) else {
        return EMPTY;
    };
    let code = hand_out(alloc, &mut shelf, out, length);
    slot.put(shelf);
    code
}

/// Writes what runs on a shelf printed to a buffer, and forgets it.
fn hand_out(alloc: Global, shelf: &mut RunShelf, out: &mut [u8], length: &mut usize) -> u32
    ensures { HandsOut result out.old out.new length.new shelf.old shelf.new }
{
    let code = write_bytes(shelf.report(), out, length);
    if code == DONE {
        shelf.forget_report(alloc);
    }
    code
}
