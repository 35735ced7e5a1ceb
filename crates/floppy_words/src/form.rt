// The subcommands (forms) of the program.

use flop_base::Name;
use std::marker::Model;

/// A number of cylinders, 1 to 80.
#[derive(Drop)]
pub struct Cylinders {
    count: u8,
}

impl Model for Cylinders {
    ghost use Rattle.std.specs.Prelude.{ℕ, ◌≤◌};

    ghost Value = { ℕ };

    ghost view = { λ kept. kept.count };

    ghost invariant = { λ kept. (1 ≤ kept.count) × (kept.count ≤ 80) };
}

impl Cylinders {
    ghost use Rattle.std.specs.Prelude.{◌≡◌, ◌≤◌};

    /// So many cylinders, numbered from 0.
    pub fn new(count: u8) -> Cylinders
        requires some { 1 ≤ count }
        requires most { count ≤ 80 }
        ensures { result ≡ count }
    {
        Cylinders { count }
    }

    /// How many cylinders there are. The last one's number is one less.
    pub fn count(&self) -> u8
        ensures value { result ≡ self.now }
        ensures some { 1 ≤ result }
        ensures most { result ≤ 80 }
    {
        self.count
    }
}

/// What the program is asked to do with its driver.
#[derive(Drop)]
pub enum Form {
    /// Runs the job of this name.
    Play { job: Name },
    /// Stores a formatted 1.44 MB disk.
    Format { name: Name, cylinders: Cylinders },
    /// Stores a formatted 720 KB disk.
    FormatDd { name: Name, cylinders: Cylinders },
    /// Stores the sectors of one disk on a new one.
    Copy { from: Name, to: Name },
    /// Reads every sector of a disk, and lists those that can't be read.
    Verify { name: Name },
    /// Stores the disk of an ImageDisk file.
    FromImd { imd: Name, name: Name },
    /// Stores the ImageDisk file of a disk.
    ToImd { name: Name, imd: Name },
    /// Lists the address fields of a disk.
    Survey { name: Name },
    /// Stores a disk laid out anew.
    Remaster { from: Name, to: Name },
    /// Makes a disk from the bytes of a flat file.
    Import { flat: Name, name: Name },
    /// Stores the bytes of all records of a disk in a flat file.
    Export { name: Name, flat: Name },
    /// Runs a generated workload: so many requests, 0 to 2,000, drawn from a seed, 0 to 2,147,483,647.
    Exercise { seed: u32, count: u16 },
    /// Serves the calls of INT 13h in the text of this name.
    Int13 { calls: Name },
    /// Writes what can be read of a failing disk to another one, and logs what can't.
    Rescue { from: Name, to: Name, log: Name },
}
