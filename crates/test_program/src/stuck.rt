// A drive of the tests' own, which a machine gets as a spare.
ghost use Rattle.std.specs.Prelude.{◌≡◌, ◌≤◌, All, IfOk, None};
ghost use Rattle.flop_base.specs.Counts.{last_count};
ghost use Rattle.pc_bus.specs.Boards.{IsEmpty};

use crate::machines::machine_with;
use crate::shelves::{shelf_with_disk, words};
use drive_model::{Drive, PlainDrive, Turn};
use flop_base::{NoMemory, Rate, Status};
use floppy_tools::floppy;
use memory_files::{MemShelf, MemSink};
use pc_bus::MachineOf;
use raw_image::Medium;
use std::alloc::Global;
use std::test::Fail;

/// A drive whose pulses are all lost.
#[derive(Drop)]
struct StuckDrive {
    inside: PlainDrive,
    faults: u64,
    ghost counted: { faults ≤ last_count },
}

impl Drive for StuckDrive {
    ghost use Rattle.drive_model.specs.PlainDrive.{plain_state};

    ghost state = { λ drive. record (plain_state drive.inside) { faults = drive.faults; left = None } };

    fn insert(&mut self, medium: Medium) -> Result<(), Medium> {
        self.inside.insert(medium)
    }

    fn eject(&mut self) -> Option<Medium> {
        self.inside.eject()
    }

    fn motor(&mut self, on: bool) {
        self.inside.motor(on);
    }

    fn pulse(&mut self, _inward: bool) {
        self.faults = self.faults.saturating_add(1);
    }

    fn track0(&self) -> bool {
        self.inside.track0()
    }

    fn changed(&self) -> bool {
        self.inside.changed()
    }

    fn protected(&self) -> bool {
        self.inside.protected()
    }

    fn rate(&self) -> Rate {
        self.inside.rate()
    }

    fn gate(&mut self, on: bool) {
        self.inside.gate(on);
    }

    fn pass(&mut self) -> bool {
        self.inside.pass()
    }

    fn read_word(&mut self, head: u8) -> Turn {
        self.inside.read_word(head)
    }

    fn write_word(&mut self, head: u8, word: u16) -> bool {
        self.inside.write_word(head, word)
    }

    #[tactic(auto, unfolding(drive_model::specs::Ahead::AreAhead))]
    fn ahead(&self, _head: u8) -> &[u16] {
        &[]
    }

    fn faults(&self) -> u64 {
        let _inside = self.inside.faults();
        self.faults
    }
}

/// One spare drive.
fn one_spare<D: Drive>(alloc: Global, drive: D) -> Result<Vec<D>, NoMemory>
    requires { IsEmpty (D.state drive) }
    ensures { IfOk result (λ spare. All (λ drive. IsEmpty (D.state drive)) spare.items) }
{
    let mut spare = Vec::new(alloc);
    spare.push(drive)?;
    Ok(spare)
}

/// What a run over a machine leaves.
#[derive(Drop)]
struct Ran {
    report: Vec<u8>,
    status: Status,
    faults: [u64; 2],
}

/// Plays the job over a machine with these drives in its bays, and this spare drive.
fn play<D: Drive>(
    alloc: Global,
    first: D,
    second: D,
    spare: D,
    shelf: &mut MemShelf,
) -> Result<Ran, Fail>
    requires first { IsEmpty (D.state first) }
    requires second { IsEmpty (D.state second) }
    requires spare { IsEmpty (D.state spare) }
{
    let words = words(alloc, "play job")?;
    let spare = one_spare(alloc, spare)?;
    let machine = machine_with(alloc, first, second)?;
    let mut sink = MemSink::new(alloc, Vec::new(alloc));
    let (status, machine) = floppy(alloc, &words, shelf, &mut sink, machine, spare);
    let faults = count_faults(machine);
    Ok(Ran {
        report: sink.bytes().to_vec(alloc)?,
        status,
        faults,
    })
}

/// The faults of a machine that isn't needed any more.
fn count_faults<D: Drive>(machine: MachineOf<D>) -> [u64; 2] {
    [machine.faults(0), machine.faults(1)]
}

#[test]
fn a_spare_whose_pulses_are_lost(rt: HostRuntime) -> Result<(), Fail> {
    let alloc = rt.alloc();
    let mut shelf = shelf_with_disk(alloc, "unit 0\ninsert 0 a.rt\nack 0\n")?;
    let stuck = StuckDrive {
        inside: PlainDrive::new(),
        faults: 0,
    };
    let first: Box<dyn Drive> = Box::new(alloc, PlainDrive::new())?;
    let second: Box<dyn Drive> = Box::new(alloc, PlainDrive::new())?;
    let next: Box<dyn Drive> = Box::new(alloc, stuck)?;
    let ran = play(alloc, first, second, next, &mut shelf)?;
    assert!(rt; is_refused(&ran));
    Ok(())
}

/// No pulse of bay 0's new drive took effect, so its diskette wasn't acknowledged.
fn is_refused(ran: &Ran) -> bool {
    let [first, second] = ran.faults;
    let told = b"unit ok\ninsert ok\nack refused 80\n";
    ran.status == Status::SomeRefused
        && ran.report.as_slice() == told.as_slice()
        && first >= 3
        && second == 0
}
