// Parts that many scripts have: a bay is made ready, and tracks are formatted.
ghost use Rattle.std.specs.Prelude.{◌≡◌};
ghost use Rattle.commands.specs.Common.{Rate, HasTries};
ghost use Rattle.floppy_session.specs.Blanks.{blank_request};
ghost use Rattle.commands.specs.Parts.{sets_rate, acknowledges, each, by_track, formats};
ghost use Rattle.commands.specs.Leading.{Goes, RanPart};

use crate::any_run::AnyRun;
use flop_base::{Name, Rate, Status};
use floppy_jobs::Request;

/// Sets an acknowledged bay to a rate; 500 kbit/s needs no request.
#[tactic(auto, unfolding(crate::specs::Parts::sets_rate))]
fn set_rate<R: AnyRun>(run: &mut R, bay: u8, rate: Rate) -> Result<(), Status>
    ensures { RanPart R.hand (Goes (sets_rate bay rate)) run.old result run.new }
{
    match rate {
        Rate::R500 => Ok(()),
        Rate::R250 => run.carry(&Request::SetRate { bay, rate }),
    }
}

/// Acknowledges a bay and sets it to the rate of its medium.
#[tactic(auto, unfolding(crate::specs::Parts::acknowledges))]
pub fn acknowledge<R: AnyRun>(run: &mut R, bay: u8, rate: Rate) -> Result<(), Status>
    ensures { RanPart R.hand (Goes (acknowledges bay rate)) run.old result run.new }
{
    run.carry(&Request::Ack { bay })?;
    set_rate(run, bay, rate)
}

/// The request for a blank medium of this rate.
pub fn blank_request(bay: u8, name: Name, cylinders: u8, rate: Rate) -> Request
    ensures value { result ≡ blank_request bay name cylinders rate }
    ensures tries { HasTries result }
{
    match rate {
        Rate::R500 => Request::Blank {
            bay,
            name,
            cylinders,
        },
        Rate::R250 => Request::BlankDd {
            bay,
            name,
            cylinders,
        },
    }
}

/// Formats the tracks of a cylinder.
fn format_cylinder<R: AnyRun>(run: &mut R, bay: u8, c: u8, heads: u8) -> Result<(), Status>
    ensures { RanPart R.hand (Goes (each 0 heads (formats bay c) tt)) run.old result run.new }
{
    for h in 0..heads {
        run.carry(&Request::Format { bay, c, h })?;
    }
    Ok(())
}

/// Formats all tracks, by cylinder, then head.
pub fn format_tracks<R: AnyRun>(
    run: &mut R,
    bay: u8,
    cylinders: u8,
    heads: u8,
) -> Result<(), Status>
    ensures { RanPart R.hand (Goes (by_track cylinders heads (formats bay) tt)) run.old result run.new }
{
    for c in 0..cylinders {
        format_cylinder(run, bay, c, heads)?;
    }
    Ok(())
}
