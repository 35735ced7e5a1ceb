// A desk, and the media in its bays.
ghost use Rattle.std.specs.Prelude.{◌≡◌, []};
ghost use Rattle.drive_model.specs.PlainDrive.{plain_state};
ghost use Rattle.machine_commands.specs.StationReady.{is_station_ready};
ghost use Rattle.machine_commands.specs.StationShown.{station_shown};
ghost use Rattle.sector_desk.specs.Quiet.{stalls_due};

use drive_model::PlainDrive;
use flop_base::{Code, NoMemory, Rate};
use irq_events::Pace;
use machine_commands::MachineStation;
use pc_bus::MachineOf;
use raw_image::Medium;
use sector_model::Station;
use std::alloc::Global;

/// A machine with its driver and two bays, whose drives have no faults and which nothing delays.
#[derive(Drop)]
pub struct SectorDesk {
    pub(crate) station: MachineStation<PlainDrive>,
    ghost ready: { ∥ is_station_ready plain_state station ∥₁ },
    ghost quiet: { stalls_due (station_shown plain_state station).counters ≡ 0 },
}

/// The timing of a machine that nothing delays.
fn no_delays(alloc: Global) -> Pace
    ensures { result.holds.items ≡ [] }
{
    Pace {
        gaps: Vec::new(alloc),
        holds: Vec::new(alloc),
        strays: Vec::new(alloc),
    }
}

impl SectorDesk {
    ghost use Rattle.std.specs.Prelude.{◌≤◌, IfOk};
    ghost use Rattle.sector_model.specs.Stations.{IsFresh};
    ghost use Rattle.sector_model.specs.Calls.{Acks, Ejects, Inserts, RatesTo};
    ghost use Rattle.sector_desk.specs.Desks.{station_of};
    ghost use Rattle.sector_desk.specs.Quiet.{IsCalm};

    /// A desk with two empty bays.
    pub fn new(alloc: Global) -> Result<SectorDesk, NoMemory>
        ensures { IfOk result (λ desk. IsFresh (station_of desk)) }
    {
        let pace = no_delays(alloc);
        let machine = MachineOf::new(alloc, PlainDrive::new(), PlainDrive::new(), pace)?;
        let station = MachineStation::set_up(machine, Vec::new(alloc));
        Ok(SectorDesk { station })
    }

    /// Puts a medium into a bay. If one is in already, the new one is given back.
    pub fn insert(&mut self, bay: u8, medium: Medium) -> Result<(), Medium>
        requires { bay ≤ 1 }
        ensures { Inserts bay medium (station_of self.old) result (station_of self.new) }
    {
        self.station.insert(bay, medium)
    }

    /// Takes the medium out of a bay, if one is in.
    pub fn eject(&mut self, bay: u8) -> Option<Medium>
        requires { bay ≤ 1 }
        ensures { Ejects bay (station_of self.old) result (station_of self.new) }
    {
        self.station.eject(bay)
    }

    /// Acknowledges the medium that was put into a bay, and finds its rate. The refusal is `NotReady`, if no medium is
    /// in.
    pub fn acknowledge(&mut self, bay: u8) -> Result<(), Code>
        requires { bay ≤ 1 }
        ensures step { Acks bay (station_of self.old) result (station_of self.new) }
        ensures calm { IsCalm bay (station_of self.old) (station_of self.new) }
    {
        self.station.ack(bay)
    }

    /// Sets the rate of an acknowledged bay.
    pub fn set_rate(&mut self, bay: u8, rate: Rate) -> Result<(), Code>
        requires { bay ≤ 1 }
        ensures step { RatesTo bay rate (station_of self.old) result (station_of self.new) }
        ensures calm { IsCalm bay (station_of self.old) (station_of self.new) }
    {
        self.station.set_rate(bay, rate)
    }
}
