// What a store does to the files of the folder. It writes into no file that is there, and a power cut leaves the old
// file or the new one.
use crate::calls::{gives, takes};
use crate::outside::remove;
use flop_base::{Shelf, StoreError};
use flop_outside::FileShelf;
use std::alloc::{Allocator, Global};
use std::cell::Cell;
use std::fs::{Metadata, OpenFile, OpenOptions, Permissions};
use std::io::{ErrorKind, Read, Seek, SeekFrom, Write};
use std::process::Abort;
use std::rt::Files;
use std::test::Fail;
use std::{fs, io};

/// How far a new file is on its way to the disk, as far as system calls show it.
#[derive(Clone, Copy, PartialEq, Eq)]
enum Progress {
    /// Nothing was written yet.
    Begun,
    /// Some of the file's bytes may be only in memory.
    Written,
    /// All bytes of the file are on the disk.
    Synced,
    /// The file also has its name, which may be only in memory.
    Named,
    /// The file's name is on the disk too.
    Lasting,
    /// The file was removed.
    Removed,
}

/// Follows the calls by which a file is stored. It fails each sync if `syncs_fail` is set.
#[derive(Drop)]
struct Watch {
    progress: Cell<Progress>,
    syncs_fail: bool,
}

impl Watch {
    fn new(syncs_fail: bool) -> Watch {
        Watch {
            progress: Cell::new(Progress::Begun),
            syncs_fail,
        }
    }

    fn is_at(&self, progress: Progress) -> bool {
        self.progress.get() == progress
    }

    // A call that leads on from one point only.
    fn lead(&self, from: Progress, to: Progress) {
        if self.is_at(from) {
            self.progress.set(to);
        }
    }

    fn sync(&self, is_folder: bool) -> io::Result<()> {
        if self.syncs_fail {
            return Err(ErrorKind::StorageFull.into());
        }
        if is_folder {
            self.lead(Progress::Named, Progress::Lasting);
        } else {
            self.lead(Progress::Written, Progress::Synced);
        }
        Ok(())
    }
}

/// An open file under a watch, or the folder.
#[derive(Drop)]
struct WatchedFile<'a, F> {
    inside: F,
    watch: &'a Watch,
    is_folder: bool,
}

impl<F: Read> Read for WatchedFile<'_, F> {
    ghost remaining = { λ file. F.remaining file.inside };

    fn read(&mut self, buf: &mut [u8]) -> io::Result<usize> {
        self.inside.read(buf)
    }
}

impl<F: Write> Write for WatchedFile<'_, F> {
    ghost contents = { λ file. F.contents file.inside };

    fn write(&mut self, buf: &[u8]) -> io::Result<usize> {
        self.watch.progress.set(Progress::Written);
        self.inside.write(buf)
    }

    fn flush(&mut self) -> io::Result<()> {
        self.inside.flush()
    }
}

impl<F: Seek> Seek for WatchedFile<'_, F> {
    ghost stream_position = { λ file. F.stream_position file.inside };

    ghost stream_bytes = { λ file. F.stream_bytes file.inside };

    fn seek(&mut self, to: SeekFrom) -> io::Result<u64> {
        self.inside.seek(to)
    }
}

impl<F: OpenFile> OpenFile for WatchedFile<'_, F> {
    fn metadata(&self) -> io::Result<Metadata> {
        self.inside.metadata()
    }

    fn set_len(&self, size: u64) -> io::Result<()> {
        self.watch.progress.set(Progress::Written);
        self.inside.set_len(size)
    }

    fn sync_all(&self) -> io::Result<()> {
        self.inside.sync_all()?;
        self.watch.sync(self.is_folder)
    }

    fn sync_data(&self) -> io::Result<()> {
        self.inside.sync_data()?;
        self.watch.sync(self.is_folder)
    }

    fn set_permissions(&self, perm: Permissions) -> io::Result<()> {
        self.inside.set_permissions(perm)
    }
}

/// Files under a watch.
#[derive(Drop)]
struct WatchedFiles<'a, R: Files> {
    inside: &'a R,
    watch: &'a Watch,
}

impl<'a, R: Files> Files for WatchedFiles<'a, R> {
    type File = WatchedFile<'a, R::File>;

    type Dir = R::Dir;

    fn open_file(&self, how: &OpenOptions, path: &str) -> io::Result<WatchedFile<'a, R::File>> {
        let inside = self.inside.open_file(how, path)?;
        Ok(WatchedFile {
            inside,
            watch: self.watch,
            is_folder: path == ".",
        })
    }

    fn open_dir(&self, path: &str) -> io::Result<R::Dir> {
        self.inside.open_dir(path)
    }

    fn metadata(&self, path: &str) -> io::Result<Metadata> {
        self.inside.metadata(path)
    }

    fn symlink_metadata(&self, path: &str) -> io::Result<Metadata> {
        self.inside.symlink_metadata(path)
    }

    fn copy(&self, from: &str, to: &str) -> io::Result<u64> {
        self.watch.progress.set(Progress::Written);
        self.inside.copy(from, to)
    }

    fn rename(&self, from: &str, to: &str) -> io::Result<()> {
        self.inside.rename(from, to)?;
        self.watch.lead(Progress::Synced, Progress::Named);
        Ok(())
    }

    fn remove_file(&self, path: &str) -> io::Result<()> {
        self.inside.remove_file(path)?;
        self.watch.progress.set(Progress::Removed);
        Ok(())
    }

    fn create_dir(&self, path: &str) -> io::Result<()> {
        self.inside.create_dir(path)
    }

    fn remove_dir(&self, path: &str) -> io::Result<()> {
        self.inside.remove_dir(path)
    }

    fn remove_dir_all<B: Allocator>(&self, alloc: B, path: &str) -> io::Result<()> {
        self.inside.remove_dir_all(alloc, path)
    }
}

/// All bytes that an open file has from here on.
fn reads(rt: &impl Abort, alloc: Global, file: &mut impl Read, wanted: &[u8]) {
    let mut bytes = Vec::new(alloc);
    assert!(rt; file.read_to_end(&mut bytes).is_ok());
    assert!(rt; bytes.as_slice() == wanted);
}

#[test]
fn a_store_writes_into_no_file_that_is_there(rt: HostRuntime) -> Result<(), Fail> {
    let alloc = rt.alloc();
    let mut shelf = FileShelf::new(&rt, rt.alloc());
    takes(&rt, &mut shelf, "floppy-test-held", b"old");
    takes(&rt, &mut shelf, "floppy-test-beside", b"other");
    let mut held = fs::open(&rt, "floppy-test-held")?;
    takes(&rt, &mut shelf, "floppy-test-held", b"new bytes");
    reads(&rt, alloc, &mut held, b"old");
    gives(&rt, alloc, &mut shelf, "floppy-test-beside", b"other");
    remove(&rt, "floppy-test-held");
    remove(&rt, "floppy-test-beside");
    Ok(())
}

#[test]
fn a_store_that_is_done_outlasts_a_power_cut(rt: HostRuntime) {
    let watch = Watch::new(false);
    let files = WatchedFiles {
        inside: &rt,
        watch: &watch,
    };
    let mut shelf = FileShelf::new(&files, rt.alloc());
    assert!(rt; shelf.store("floppy-test-synced", b"old").is_ok());
    assert!(rt; watch.is_at(Progress::Lasting));
    assert!(rt; shelf.store("floppy-test-synced", b"new").is_ok());
    assert!(rt; watch.is_at(Progress::Lasting));
    remove(&rt, "floppy-test-synced");
}

#[test]
fn a_store_whose_sync_fails_leaves_the_old_file(rt: HostRuntime) {
    let mut plain = FileShelf::new(&rt, rt.alloc());
    takes(&rt, &mut plain, "floppy-test-unsynced", b"old");
    let watch = Watch::new(true);
    let files = WatchedFiles {
        inside: &rt,
        watch: &watch,
    };
    let mut shelf = FileShelf::new(&files, rt.alloc());
    let refused = shelf.store("floppy-test-unsynced", b"new").err();
    assert!(rt; refused == Some(StoreError::Failed));
    assert!(rt; shelf.faults() == 1);
    assert!(rt; watch.is_at(Progress::Removed));
    gives(&rt, rt.alloc(), &mut plain, "floppy-test-unsynced", b"old");
    remove(&rt, "floppy-test-unsynced");
}

#[test]
fn what_was_only_loaded_is_not_written(rt: HostRuntime) {
    let (alloc, name) = (rt.alloc(), "floppy-test-read");
    let mut plain = FileShelf::new(&rt, alloc);
    takes(&rt, &mut plain, name, b"bytes");
    let watch = Watch::new(true);
    let files = WatchedFiles {
        inside: &rt,
        watch: &watch,
    };
    let mut shelf = FileShelf::new(&files, alloc);
    assert!(rt; shelf.load(alloc, name, 5).is_ok());
    assert!(rt; shelf.store(name, b"bytes").is_ok());
    assert!(rt; watch.is_at(Progress::Begun));
    remove(&rt, name);
}
