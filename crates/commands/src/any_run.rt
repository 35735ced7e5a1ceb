// What a command holds.
ghost use Rattle.std.specs.Prelude.{◌≡◌, ◌<◌, ◌≤◌, false, length, slice_index, List, IfOk, OnOk};
ghost use Rattle.flop_base.specs.Memory.{user_bytes};
ghost use Rattle.commands.specs.Common.{Taken, bay_of, Step, is_refusal, reply_lines, shape_in, HasTries};
ghost use Rattle.bios_int13.specs.Services.{Serves};
ghost use Rattle.commands.specs.Parts.{asks, needs, carries, opens};
ghost use Rattle.commands.specs.Leading.{Hand, Answers, Goes, SaysLine, FinishesBy, StoresBy, AsksOne, PutsLines, PutsLine, TellsLine, TellsStop, LoadsText, Leaves, IsTold, Ran, RanPart, RanLast, HasLoaded, IsInSession};

use bios_int13::{Int13, Regs};
use flop_base::{LoadError, Name, Status};
use floppy_jobs::Request;
use floppy_session::Shape;
use sector_model::{Reply, Stop};
use std::alloc::{AllocError, Global};

/// What a command holds: a session, the store of its files (shelf), and the output for its report (sink).
pub trait AnyRun {
    /// What is held, as contracts see it.
    ghost hand: { Self → Hand };

    /// The memory that its lines take.
    fn alloc(&self) -> Global;

    /// The shape of the medium in a bay; nothing where none is in.
    fn shape(&self, bay: u8) -> Option<Shape>
        requires { bay ≤ 1 }
        ensures { result ≡ shape_in (bay_of (hand self.now).world.state.station bay) };

    /// A byte of user memory.
    fn memory(&self, address: u32) -> u8
        requires { address < user_bytes }
        ensures byte { result ≡ slice_index (hand self.now).world.state.station.memory address }
        ensures size { length (hand self.now).world.state.station.memory ≡ user_bytes };

    /// The bytes of a file of at most so many.
    fn load(&mut self, name: &str, most: usize) -> Result<Vec<u8>, LoadError>
        ensures { HasLoaded hand name.now most self.old result self.new };

    /// The bytes of a text of at most so many. If it isn't loaded, the command ends, and the reason is printed, unless
    /// memory ran out or the file store failed.
    fn load_text(&mut self, name: &str, most: usize) -> Result<Vec<u8>, Status>
        ensures { RanPart hand (LoadsText name.now most) self.old result self.new };

    /// Asks a request, and gives its answer, which may be a refusal. If something stops the run, the command ends, and
    /// the cause is printed, unless memory ran out or the file store failed.
    fn ask(&mut self, request: &Request) -> Result<Reply, Status>
        requires { HasTries request.now }
        ensures ran { RanPart hand (Answers (asks request.now)) self.old result self.new }
        ensures asks { AsksOne request.now (hand self.old).world result (hand self.new).world };

    /// Asks a request that the command can't go on without. A refusal is printed, and ends the command. If something
    /// stops the run, the command ends too, and the cause is printed, unless memory ran out or the file store failed.
    fn need(&mut self, request: &Request) -> Result<Reply, Status>
        requires { HasTries request.now }
        ensures ran { RanPart hand (Answers (needs request.now)) self.old result self.new }
        ensures step { IfOk result (λ answer. Step request.now (hand self.old).world.state (hand self.old).world.files
            answer (hand self.new).world.state (hand self.new).world.files) }
        ensures fine { IfOk result (λ answer. is_refusal answer ≡ false) };

    /// Serves a call of INT 13h, and gives the registers after it.
    fn int13(&mut self, front: &mut Int13, regs: Regs) -> Regs
        ensures serves { (course : List Taken) × Serves front.old regs (hand self.old).world.state (hand self.old).world.files
            result front.new course (hand self.new).world.state }
        ensures alone { IsInSession hand self.old self.new };

    /// Puts the lines of the answer to a request.
    fn tell(&mut self, request: &Request, reply: &Reply) -> Result<(), Status>
        ensures { RanPart hand (PutsLines (reply_lines request.now reply.now)) self.old result self.new };

    /// Puts a line.
    fn say(&mut self, line: Result<String, AllocError>) -> Result<(), Status>
        ensures ran { RanPart hand (SaysLine line) self.old result self.new }
        ensures puts { PutsLine line (hand self.old).world result (hand self.new).world };

    /// Puts the last line of a command, and gives the status.
    fn finish(&mut self, line: Result<String, AllocError>, status: Status) -> Status
        requires { IsTold status }
        ensures ran { Ran hand (FinishesBy line status) self.old self.new result }
        ensures tells { TellsLine line status (hand self.old).world (hand self.new).world result };

    /// Puts the last line of a run that stopped, and gives its status.
    fn tell_stop(&mut self, stop: &Stop) -> Status
        ensures { RanLast hand (TellsStop stop.now) (stop.now ≡ Stop.FileFault) self.old self.new result };

    /// Stores a file, and puts the last line of the command, and gives the status.
    fn store_last(
        &mut self,
        name: &str,
        bytes: &[u8],
        line: Result<String, AllocError>,
        status: Status,
    ) -> Status
        requires { IsTold status }
        ensures { Ran hand (StoresBy name.now bytes.now line status) self.old self.new result };

    /// Stores what is left in the bays. The error is the status of a store that failed.
    fn end(&mut self) -> Result<(), Status>
        ensures { RanPart hand Leaves self.old result self.new };

    /// Asks a request that the command can't go on without, and whose answer says nothing more.
    #[tactic(auto, unfolding(crate::specs::Parts::carries))]
    final fn carry(&mut self, request: &Request) -> Result<(), Status>
        requires { HasTries request.now }
        ensures { RanPart hand (Goes (carries request.now)) self.old result self.new }
    {
        match self.need(request) {
            Ok(_) => Ok(()),
            Err(ended) => Err(ended),
        }
    }

    /// Puts the disk of this name into bay 0, and gives its shape.
    #[tactic(auto, unfolding(crate::specs::Parts::opens))]
    final fn open_disk(&mut self, name: Name) -> Result<Shape, Status>
        ensures ran { RanPart hand (Goes (opens name)) self.old result self.new }
        ensures files { OnOk result ((hand self.new).world.files ≡ (hand self.old).world.files) }
    {
        self.need(&Request::Insert { bay: 0, name })?;
        match self.shape(0) {
            Some(shape) => Ok(shape),
            None => unreachable!(),
        }
    }
}
