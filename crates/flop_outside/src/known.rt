// What this run knows of the files that it loaded or stored: the bytes that each had then.
use crate::replace::{PIECE, has_bytes};
use sha2::{Digest, Sha256};
use std::alloc::{AllocError, Global};
use std::collections::BTreeMap;
use std::io::{ErrorKind, Read};
use std::rt::Files;
use std::{fs, io};

/// What an image begins with in the older version of its format. The two versions differ in nothing else.
const OLDER: &[u8] = b"RTIMAGE1";

const NEWER: &[u8] = b"RTIMAGE2";

/// How many files are known by their bytes. Of all others a digest is kept, since an image has four megabytes.
const MOST_WHOLE: usize = 4;

/// The SHA-256 digest of some bytes.
#[derive(Clone, Copy, PartialEq, Eq)]
pub(crate) struct Sum {
    bytes: [u8; 32],
}

impl Sum {
    /// The digest of these bytes.
    fn of(bytes: &[u8]) -> Sum {
        Sum {
            bytes: Sha256::digest(bytes),
        }
    }

    /// The digest of the same image in the older version of its format. Bytes that aren't an image have none.
    fn of_older(bytes: &[u8]) -> Option<Sum> {
        let words = bytes.strip_prefix(NEWER)?;
        let mut hasher = Sha256::new_with_prefix(OLDER);
        hasher.update(words);
        Some(Sum {
            bytes: hasher.finalize(),
        })
    }

    /// The digest of the file that has a name now.
    fn of_file(rt: &impl Files, name: &str) -> io::Result<Sum> {
        let mut file = fs::open(rt, name)?;
        let mut hasher = Sha256::new();
        let mut piece = [0u8; PIECE];
        for _ in 0..u64::MAX {
            let count = file.read(&mut piece)?;
            if count == 0 {
                break;
            }
            hasher.update(&piece[..count]);
        }
        Ok(Sum {
            bytes: hasher.finalize(),
        })
    }
}

/// The bytes that a file had, or their digest.
#[derive(Clone, Copy)]
pub(crate) enum Content<'a> {
    Bytes(&'a [u8]),
    Sum(Sum),
}

impl Content<'_> {
    /// Whether the file had these bytes.
    pub(crate) fn is(self, bytes: &[u8]) -> bool {
        match self {
            Content::Bytes(known) => known == bytes,
            Content::Sum(sum) => sum == Sum::of(bytes),
        }
    }

    /// Whether the file had the same image in the older version of its format.
    pub(crate) fn is_older(self, bytes: &[u8]) -> bool {
        match self {
            Content::Bytes(known) => match (known.strip_prefix(OLDER), bytes.strip_prefix(NEWER)) {
                (Some(old), Some(new)) => old == new,
                _ => false,
            },
            Content::Sum(sum) => Sum::of_older(bytes) == Some(sum),
        }
    }

    /// Whether the file still has the same bytes. Nothing comes back if the file is gone.
    pub(crate) fn is_still_there(self, rt: &impl Files, name: &str) -> io::Result<Option<bool>> {
        let found = match self {
            Content::Bytes(known) => has_bytes(rt, name, known),
            Content::Sum(sum) => match Sum::of_file(rt, name) {
                Ok(there) => Ok(there == sum),
                Err(error) => Err(error),
            },
        };
        match found {
            Ok(same) => Ok(Some(same)),
            Err(error) if error.kind() == ErrorKind::NotFound => Ok(None),
            Err(error) => Err(error),
        }
    }
}

/// A file that is known by its bytes.
#[derive(Drop)]
struct Whole {
    name: String,
    bytes: Vec<u8>,
}

/// The files that this run loaded or stored. The last ones are known by their bytes, and all others by a digest.
#[derive(Drop)]
pub(crate) struct Known {
    alloc: Global,
    whole: Vec<Whole>,
    sums: BTreeMap<String, Sum>,
}

impl Known {
    /// No file was loaded or stored yet.
    pub(crate) fn new(alloc: Global) -> Known {
        Known {
            alloc,
            whole: Vec::new(alloc),
            sums: BTreeMap::new(alloc),
        }
    }

    /// What a file had when this run loaded or stored it last.
    pub(crate) fn content_of(&self, name: &str) -> Option<Content<'_>> {
        for file in self.whole.iter() {
            if file.name.as_str() == name {
                return Some(Content::Bytes(file.bytes.as_slice()));
            }
        }
        match self.sums.get(name) {
            Some(sum) => Some(Content::Sum(*sum)),
            None => None,
        }
    }

    /// Keeps the bytes that a file has now. Without memory for them the file counts as unknown.
    pub(crate) fn keep(&mut self, name: &str, bytes: &[u8]) -> Result<(), AllocError> {
        self.forget(name);
        let kept = Whole {
            name: String::from_str(self.alloc, name)?,
            bytes: Vec::from_slice(self.alloc, bytes)?,
        };
        if self.whole.len() >= MOST_WHOLE {
            let oldest = self.whole.remove(0);
            self.sums.insert(oldest.name, Sum::of(&oldest.bytes))?;
        }
        self.whole.push(kept)?;
        Ok(())
    }

    fn forget(&mut self, name: &str) {
        let _ = self.sums.remove(name);
        for at in 0..self.whole.len() {
            if self.whole[at].name.as_str() == name {
                self.whole.remove(at);
                return;
            }
        }
    }
}
