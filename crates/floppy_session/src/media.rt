// The requests that exchange media and drives.
ghost use Rattle.std.specs.Prelude.{◌≡◌, ◌≤◌, Option, false, true, IfOk, IfErr, OnOk, OnErr, IsErrOf, IsOkUnless};
ghost use Rattle.flop_base.specs.Shelf.{Files};
ghost use Rattle.flop_base.specs.Bays.{in_bay, with_bay};
ghost use Rattle.sector_model.specs.States.{ChangesMedium};
ghost use Rattle.sector_model.specs.Steps.{Step, StopsAt, StoresMedium, is_loaded, is_blank_request as is_blank_request_of, blank_of};
ghost use Rattle.sector_model.specs.Runs.{EndsBay, DropsMedium, IsEndStop};
ghost use Rattle.sector_model.specs.Faults.{Blames};
ghost use Rattle.floppy_session.specs.Blanks.{blank_request};

use crate::loading::{load_medium, store_medium};
use crate::session::{Session, bad_request};
use crate::shape::Shape;
use flop_base::{Name, NoMemory, Rate, Shelf};
use floppy_jobs::Request;
use raw_image::Medium;
use sector_model::{Reason, Reply, Station, Stop};
use std::alloc::Global;

impl<D: Station> Session<D> {
    /// Loads the image of this name and puts its medium in.
    pub(crate) fn insert<S: Shelf>(
        &mut self,
        shelf: &mut S,
        bay: u8,
        name: &Name,
    ) -> Result<Reply, Stop>
        ensures step { IfOk result (λ reply. Step (Request.Insert bay name.now) self.old
            (S.told shelf.old) reply self.new (S.told shelf.new)) }
        ensures stop { IfErr result (λ stop. StopsAt (Request.Insert bay name.now) self.old
            (S.told shelf.old) stop self.new (S.told shelf.new)) }
        ensures faults { Blames (IsErrOf result Stop.FileFault) (S.fault_count shelf.old) (S.fault_count shelf.new) }
    {
        if bay > 1 {
            return Ok(bad_request());
        }
        if self.station.is_loaded(bay) {
            return Ok(Reply::Refused(Reason::Busy));
        }
        let medium = load_medium(self.alloc, shelf, name)?;
        let name = Name::copy(self.alloc, name.as_str())?;
        self.put_in(bay, name, medium);
        Ok(Reply::Done)
    }

    /// Puts in a blank medium of this rate. It will be stored under this name.
    pub(crate) fn blank(
        &mut self,
        bay: u8,
        name: &Name,
        cylinders: u8,
        rate: Rate,
    ) -> Result<Reply, Stop>
        ensures step { IfOk result (λ reply. (told : Option Files) → Step (blank_request bay name.now cylinders rate) self.old
            told reply self.new told) }
        ensures stop { IfErr result (λ stop. (told : Option Files) → StopsAt (blank_request bay name.now cylinders rate) self.old
            told stop self.new told) }
        ensures memory { IsOkUnless result Stop.NoMemory }
    {
        if !is_blank_request(bay, cylinders) {
            return Ok(bad_request());
        }
        if self.station.is_loaded(bay) {
            return Ok(Reply::Refused(Reason::Busy));
        }
        let medium = blank_medium(self.alloc, cylinders, rate)?;
        let name = Name::copy(self.alloc, name.as_str())?;
        self.put_in(bay, name, medium);
        Ok(Reply::Done)
    }

    /// Puts a medium into an empty bay. It will be stored under this name.
    fn put_in(&mut self, bay: u8, name: Name, medium: Medium)
        requires bay { bay ≤ 1 }
        requires empty { is_loaded self.old bay ≡ false }
        ensures { ChangesMedium bay (Some name) (Some medium) self.old self.new }
    {
        let shape = Shape::of(&medium);
        match self.station.insert(bay, medium) {
            Ok(()) => self.labels.set(bay, name, shape),
            Err(_) => unreachable!(),
        }
    }

    /// Takes the medium out and stores its image under its name.
    pub(crate) fn eject<S: Shelf>(&mut self, shelf: &mut S, bay: u8) -> Result<Reply, Stop>
        ensures step { IfOk result (λ reply. Step (Request.Eject bay) self.old
            (S.told shelf.old) reply self.new (S.told shelf.new)) }
        ensures stop { IfErr result (λ stop. StopsAt (Request.Eject bay) self.old
            (S.told shelf.old) stop self.new (S.told shelf.new)) }
        ensures faults { Blames (IsErrOf result Stop.FileFault) (S.fault_count shelf.old) (S.fault_count shelf.new) }
    {
        if bay > 1 {
            return Ok(bad_request());
        }
        if !self.station.is_loaded(bay) {
            return Ok(Reply::Refused(Reason::Empty));
        }
        self.take_out(shelf, bay)?;
        Ok(Reply::Done)
    }

    /// Takes the medium out of a loaded bay and stores its image under its name. After a stop the medium is dropped.
    fn take_out<S: Shelf>(&mut self, shelf: &mut S, bay: u8) -> Result<(), Stop>
        requires bay { bay ≤ 1 }
        requires loaded { is_loaded self.old bay ≡ true }
        ensures ok { OnOk result (StoresMedium bay self.old (S.told shelf.old) self.new (S.told shelf.new)) }
        ensures cause { IfErr result IsEndStop }
        ensures dropped { OnErr result (ChangesMedium bay None None self.old self.new) }
        ensures err { OnErr result (S.told shelf.new ≡ S.told shelf.old) }
        ensures faults { Blames (IsErrOf result Stop.FileFault) (S.fault_count shelf.old) (S.fault_count shelf.new) }
    {
        let name = self.labels.take(bay).unwrap();
        let medium = self.station.eject(bay).unwrap();
        store_medium(self.alloc, shelf, &name, &medium)
    }

    /// Takes the medium out of a bay, if one is in, and stores its image under its name.
    pub(crate) fn end_bay<S: Shelf>(&mut self, shelf: &mut S, bay: u8) -> Result<(), Stop>
        requires { bay ≤ 1 }
        ensures ok { OnOk result (EndsBay bay self.old (S.told shelf.old) self.new (S.told shelf.new)) }
        ensures cause { IfErr result IsEndStop }
        ensures dropped { OnErr result (DropsMedium bay self.old self.new) }
        ensures err { OnErr result (S.told shelf.new ≡ S.told shelf.old) }
        ensures faults { Blames (IsErrOf result Stop.FileFault) (S.fault_count shelf.old) (S.fault_count shelf.new) }
    {
        if self.station.is_loaded(bay) {
            self.take_out(shelf, bay)
        } else {
            Ok(())
        }
    }

    /// Takes the next spare drive into the bay.
    pub(crate) fn take_unit(&mut self, bay: u8) -> Reply
        ensures { (told : Option Files) → Step (Request.Unit bay) self.old told result self.new told }
    {
        if bay > 1 {
            return bad_request();
        }
        if self.station.is_loaded(bay) {
            return Reply::Refused(Reason::Busy);
        }
        if self.station.take_unit(bay) {
            Reply::Done
        } else {
            Reply::Refused(Reason::NoSpare)
        }
    }
}

/// Whether a blank medium with this many cylinders can be asked for in this bay.
fn is_blank_request(bay: u8, cylinders: u8) -> bool
    ensures { result ≡ is_blank_request_of bay cylinders }
{
    bay <= 1 && 1 <= cylinders && cylinders <= 80
}

/// A blank medium with two heads.
fn blank_medium(alloc: Global, cylinders: u8, rate: Rate) -> Result<Medium, NoMemory>
    requires least { 1 ≤ cylinders }
    requires most { cylinders ≤ 80 }
    ensures { IfOk result (λ medium. medium ≡ blank_of cylinders rate) }
{
    Medium::blank_at(alloc, cylinders, 2, rate.words(), rate)
}
