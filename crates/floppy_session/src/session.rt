// A session: a station, and the names under which the media in its bays are stored.
ghost use Rattle.std.specs.Prelude.{◌≡◌, ◌≤◌, IfOk, IfErr, OnOk, IsErrOf};
ghost use Rattle.sector_model.specs.Stations.{IsFresh, bay_of};
ghost use Rattle.sector_model.specs.States.{start_of, IsNamed};
ghost use Rattle.sector_model.specs.Steps.{Step, StopsAt};
ghost use Rattle.sector_model.specs.Runs.{Ends, EndStopsAt, IsEndStop};
ghost use Rattle.sector_model.specs.Faults.{Blames};
ghost use Rattle.floppy_session.specs.Tries.{HasTries};
ghost use Rattle.floppy_session.specs.Shapes.{shape_in};

use crate::labels::Labels;
use crate::shape::Shape;
use flop_base::{Code, Name, Rate, Shelf};
use floppy_jobs::Request;
use sector_model::{Reason, Reply, Station, Stop};
use std::alloc::Global;
use std::marker::Model;

/// A session over a station, which runs requests one after the other. Contracts see the session as its state.
#[derive(Drop)]
pub struct Session<D: Station> {
    pub(crate) alloc: Global,
    pub(crate) station: D,
    pub(crate) labels: Labels,
}

impl<D: Station> Model for Session<D> {
    ghost use Rattle.sector_model.specs.States.{State};

    ghost Value = { State };

    ghost use Rattle.floppy_session.specs.Session.{state_of, IsRunning};

    ghost view = { λ s. state_of (D.shown s.station) s.labels };

    ghost invariant = { λ s. IsRunning (D.is_ready s.station) (D.shown s.station) s.labels };
}

impl<D: Station> Session<D> {
    /// A session over a fresh station.
    pub fn new(alloc: Global, station: D) -> Session<D>
        requires fresh { IsFresh (D.shown station) }
        requires ready { D.is_ready station }
        ensures { result ≡ start_of (D.shown station) }
    {
        Session {
            alloc,
            station,
            labels: Labels::none(),
        }
    }

    /// The station under the session: its bays, its memory and its counts. A bay has a name if, and only if, it has a
    /// medium.
    pub fn station(&self) -> &D
        ensures shown { D.shown result.now ≡ self.now.station }
        ensures named { IsNamed self.now }
    {
        &self.station
    }

    /// The shape of the medium in a bay, or nothing if none is in.
    pub fn shape(&self, bay: u8) -> Option<Shape>
        requires { bay ≤ 1 }
        ensures { result ≡ shape_in (bay_of self.now.station bay) }
    {
        self.labels.shape(bay)
    }

    /// The station alone. The names of the media are dropped.
    pub fn into_station(self) -> D
        ensures shown { D.shown result ≡ self.station }
        ensures ready { D.is_ready result }
    {
        let Session { station, .. } = self;
        station
    }

    /// Runs one request. A refusal is a reply, after which the next request may follow. An error stops the whole run.
    pub fn run<S: Shelf>(&mut self, shelf: &mut S, request: &Request) -> Result<Reply, Stop>
        requires { HasTries request.now }
        ensures step { IfOk result (λ reply. Step request.now self.old (S.told shelf.old) reply self.new (S.told shelf.new)) }
        ensures stop { IfErr result (λ stop. StopsAt request.now self.old (S.told shelf.old) stop self.new (S.told shelf.new)) }
        ensures faults { Blames (IsErrOf result Stop.FileFault) (S.fault_count shelf.old) (S.fault_count shelf.new) }
    {
        match request {
            Request::Insert { bay, name } => self.insert(shelf, *bay, name),
            Request::Blank {
                bay,
                name,
                cylinders,
            } => self.blank(*bay, name, *cylinders, Rate::R500),
            Request::BlankDd {
                bay,
                name,
                cylinders,
            } => self.blank(*bay, name, *cylinders, Rate::R250),
            Request::Eject { bay } => self.eject(shelf, *bay),
            Request::Ack { bay } => Ok(self.ack(*bay)),
            Request::Read { bay, key, address } => Ok(self.read(*bay, *key, *address)),
            Request::Write { bay, key, address } => Ok(self.write(*bay, *key, *address)),
            Request::WriteDeleted { bay, key, address } => {
                Ok(self.write_deleted(*bay, *key, *address))
            }
            Request::Format { bay, c, h } => Ok(self.format(*bay, *c, *h)),
            Request::Fill {
                address,
                length,
                byte,
            } => Ok(self.fill(*address, *length, *byte)),
            Request::Dump { address, length } => self.dump(*address, *length),
            Request::Unit { bay } => Ok(self.take_unit(*bay)),
            Request::SetRate { bay, rate } => Ok(self.set_rate(*bay, *rate)),
            Request::Tries { tries } => Ok(self.set_tries(*tries)),
        }
    }

    /// Ends a run. The medium of bay 0, and then that of bay 1, is taken out and stored under its name. An error drops
    /// the medium that wasn't stored. If that was the medium of bay 0, bay 1 stays as it is.
    pub fn end<S: Shelf>(&mut self, shelf: &mut S) -> Result<(), Stop>
        ensures ends { OnOk result (Ends self.old (S.told shelf.old) self.new (S.told shelf.new)) }
        ensures stop { IfErr result (λ stop. IsEndStop stop × EndStopsAt self.old (S.told shelf.old)
            self.new (S.told shelf.new)) }
        ensures faults { Blames (IsErrOf result Stop.FileFault) (S.fault_count shelf.old) (S.fault_count shelf.new) }
    {
        self.end_bay(shelf, 0)?;
        self.end_bay(shelf, 1)
    }
}

/// The refusal of a request that the driver can't be asked for.
pub(crate) fn bad_request() -> Reply
    ensures { result ≡ Reply.Refused (Reason.Driver Code.BadRequest) }
{
    Reply::Refused(Reason::Driver(Code::BadRequest))
}
