// What comes before the records. The other diskette is put in, both bays are acknowledged, and a new diskette is
// formatted.
ghost use Rattle.std.specs.Prelude.{◌≡◌, true, false};
ghost use Rattle.disk_commands.specs.Common.{Rate, Goes, RanPart};
ghost use Rattle.disk_commands.specs.Rescue.{acknowledges_both, prepares_old, prepares_new, prepares};

use commands::{AnyRun, acknowledge, blank_request, format_tracks};
use flop_base::{Name, Rate, Status};
use floppy_jobs::Request;
use floppy_session::Shape;

/// Acknowledges both bays.
#[tactic(auto, unfolding(crate::specs::Rescue::acknowledges_both))]
fn acknowledge_both<R: AnyRun>(run: &mut R, rate: Rate) -> Result<(), Status>
    ensures { RanPart R.hand (Goes (acknowledges_both rate)) run.old result run.new }
{
    acknowledge(run, 0, rate)?;
    acknowledge(run, 1, rate)
}

/// Puts the other diskette in, as an earlier run left it.
#[tactic(auto, unfolding(crate::specs::Rescue::prepares_old))]
fn prepare_old<R: AnyRun>(run: &mut R, to: Name, shape: Shape) -> Result<(), Status>
    ensures { RanPart R.hand (Goes (prepares_old to shape)) run.old result run.new }
{
    run.carry(&Request::Insert { bay: 1, name: to })?;
    acknowledge_both(run, shape.rate)
}

/// Makes the other diskette. It is blank, acknowledged, and then formatted as the first one.
#[tactic(auto, unfolding(crate::specs::Rescue::prepares_new))]
fn prepare_new<R: AnyRun>(run: &mut R, to: Name, shape: Shape) -> Result<(), Status>
    ensures { RanPart R.hand (Goes (prepares_new to shape)) run.old result run.new }
{
    let blank = blank_request(1, to, shape.cylinders, shape.rate);
    run.carry(&blank)?;
    acknowledge_both(run, shape.rate)?;
    format_tracks(run, 1, shape.cylinders, shape.heads)
}

/// Makes the other diskette ready. `logged` is true if there is a log, and therefore a diskette of an earlier run.
#[tactic(auto, unfolding(crate::specs::Rescue::prepares))]
pub(crate) fn prepare<R: AnyRun>(
    run: &mut R,
    to: Name,
    shape: Shape,
    logged: bool,
) -> Result<(), Status>
    ensures { RanPart R.hand (Goes (prepares to shape logged)) run.old result run.new }
{
    if logged {
        prepare_old(run, to, shape)
    } else {
        prepare_new(run, to, shape)
    }
}
