// The requests that are calls of the driver.
ghost use Rattle.std.specs.Prelude.{◌≡◌, ◌+◌, ◌≤◌, not, length, Option, IfErr};
ghost use Rattle.flop_base.specs.Shelf.{Files};
ghost use Rattle.flop_base.specs.Memory.{SameOutside};
ghost use Rattle.sector_model.specs.Orders.{is_acknowledged};
ghost use Rattle.sector_model.specs.States.{IsSame};
ghost use Rattle.sector_model.specs.Steps.{Step, reply_of, read_reply};

use crate::session::{Session, bad_request};
use flop_base::standard::FILL;
use flop_base::{Chrn, Code, Rate};
use floppy_jobs::Request;
use sector_model::{Reason, Reply, Station};

impl<D: Station> Session<D> {
    /// Acknowledges an exchange of the medium.
    pub(crate) fn ack(&mut self, bay: u8) -> Reply
        ensures { (told : Option Files) → Step (Request.Ack bay) self.old told result self.new told }
    {
        reply(self.station.ack(bay))
    }

    /// Acknowledges an exchange of the medium.
    pub fn acknowledge(&mut self, bay: u8) -> Result<(), Code>
        ensures step { (told : Option Files) → Step (Request.Ack bay) self.old told (reply_of result) self.new told }
        ensures answers { bay ≤ 1 → IfErr result (λ code. code ≡ Code.NotReady) }
    {
        self.station.ack(bay)
    }

    /// Whether the bay isn't acknowledged.
    pub fn is_changed(&mut self, bay: u8) -> bool
        requires { bay ≤ 1 }
        ensures value { result ≡ not (is_acknowledged self.old.station bay) }
        ensures same { IsSame 2 self.old self.new }
    {
        self.station.changed(bay)
    }

    /// Reads the record with this key to memory.
    pub(crate) fn read(&mut self, bay: u8, key: Chrn, address: u32) -> Reply
        ensures { (told : Option Files) → Step (Request.Read bay key address) self.old told result self.new told }
    {
        reply_to_read(self.station.read(bay, key, address))
    }

    /// Reads the record with this key to memory.
    pub fn read_record(&mut self, bay: u8, key: Chrn, address: u32) -> Result<bool, Code>
        ensures step { (told : Option Files) → Step (Request.Read bay key address) self.old told
            (read_reply result) self.new told }
        ensures outside { key.n ≡ 2 → address + 512 ≤ length self.old.station.memory
            → SameOutside address 512 self.old.station.memory self.new.station.memory }
    {
        self.station.read(bay, key, address)
    }

    /// Writes memory to the record with this key.
    pub(crate) fn write(&mut self, bay: u8, key: Chrn, address: u32) -> Reply
        ensures { (told : Option Files) → Step (Request.Write bay key address) self.old told result self.new told }
    {
        reply(self.station.write(bay, key, address, false))
    }

    /// Writes memory to the record with this key.
    pub fn write_record(&mut self, bay: u8, key: Chrn, address: u32) -> Result<(), Code>
        ensures { (told : Option Files) → Step (Request.Write bay key address) self.old told (reply_of result) self.new told }
    {
        self.station.write(bay, key, address, false)
    }

    /// Writes memory to the record with this key and marks it deleted.
    pub(crate) fn write_deleted(&mut self, bay: u8, key: Chrn, address: u32) -> Reply
        ensures { (told : Option Files) → Step (Request.WriteDeleted bay key address) self.old told result self.new told }
    {
        reply(self.station.write(bay, key, address, true))
    }

    /// Formats the track of this cylinder and head in the standard layout of the bay's rate.
    pub(crate) fn format(&mut self, bay: u8, c: u8, h: u8) -> Reply
        ensures { (told : Option Files) → Step (Request.Format bay c h) self.old told result self.new told }
    {
        if bay > 1 {
            return bad_request();
        }
        let gap3 = self.station.rate(bay).format_gap();
        reply(self.station.format(bay, c, h, gap3, FILL))
    }

    /// Sets the data rate of the bay.
    pub(crate) fn set_rate(&mut self, bay: u8, rate: Rate) -> Reply
        ensures { (told : Option Files) → Step (Request.SetRate bay rate) self.old told result self.new told }
    {
        reply(self.station.set_rate(bay, rate))
    }

    /// Sets the number of attempts of the requests after this one.
    pub(crate) fn set_tries(&mut self, tries: u8) -> Reply
        requires least { 1 ≤ tries }
        requires most { tries ≤ 10 }
        ensures { (told : Option Files) → Step (Request.Tries tries) self.old told result self.new told }
    {
        self.station.set_tries(tries);
        Reply::Done
    }
}

/// The reply to a call of the driver.
fn reply(called: Result<(), Code>) -> Reply
    ensures { result ≡ reply_of called }
{
    match called {
        Ok(()) => Reply::Done,
        Err(code) => Reply::Refused(Reason::Driver(code)),
    }
}

/// The reply to a read.
fn reply_to_read(called: Result<bool, Code>) -> Reply
    ensures { result ≡ read_reply called }
{
    match called {
        Ok(true) => Reply::DoneDeleted,
        Ok(false) => Reply::Done,
        Err(code) => Reply::Refused(Reason::Driver(code)),
    }
}
