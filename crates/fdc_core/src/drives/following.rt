// What the drives do after a port write.
ghost use Rattle.std.specs.Prelude.{◌<◌};
ghost use Rattle.fdc_core.specs.Times.{Closes};
ghost use Rattle.fdc_core.specs.Drives.Following.{FollowsDor, FollowsMotor, FollowsWrite};

use crate::Fdc;
use drive_model::Drive;
use fdc_registers::ports::DOR;

/// Both drives follow a write of a port, whichever DOR selects: their motors follow DOR, and a reset closes their
/// gates.
pub fn follow_write<D: Drive>(controller: &Fdc, port: u16, value: u8, first: &mut D, second: &mut D)
    ensures first { FollowsWrite port value 0 controller.now (D.state first.old) (D.state first.new) }
    ensures second { FollowsWrite port value 1 controller.now (D.state second.old) (D.state second.new) }
{
    follow(controller, port, value, 0, first);
    follow(controller, port, value, 1, second);
}

/// The drive in a bay follows a write of a port: its motor follows DOR, and a reset closes its gate.
fn follow<D: Drive>(controller: &Fdc, port: u16, value: u8, bay: u8, drive: &mut D)
    requires { bay < 4 }
    ensures { FollowsWrite port value bay controller.now (D.state drive.old) (D.state drive.new) }
{
    follow_dor(port == DOR, controller, bay, drive);
    close_gate(Fdc::is_reset_by(port, value), drive);
}

/// Gives a drive its motor line, where DOR was written.
fn follow_dor<D: Drive>(written: bool, controller: &Fdc, bay: u8, drive: &mut D)
    requires { bay < 4 }
    ensures { FollowsDor written bay controller.now (D.state drive.old) (D.state drive.new) }
{
    if written {
        follow_motor(controller, bay, drive);
    }
}

/// Gives the drive in a bay its motor line.
pub fn follow_motor<D: Drive>(controller: &Fdc, bay: u8, drive: &mut D)
    requires { bay < 4 }
    ensures { FollowsMotor bay controller.now (D.state drive.old) (D.state drive.new) }
{
    drive.motor(controller.motor(bay));
}

/// Closes the write gate of a drive, where the controller was reset.
fn close_gate<D: Drive>(reset: bool, drive: &mut D)
    ensures { Closes reset (D.state drive.old) (D.state drive.new) }
{
    if reset {
        drive.gate(false);
    }
}
