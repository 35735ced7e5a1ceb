// Word times of the controller and its drives, one by one and many at once.
ghost use Rattle.std.specs.Prelude.{◌≤◌};
ghost use Rattle.fdc_core.specs.Common.{LetsPass};
ghost use Rattle.fdc_core.specs.Courses.{Courses, Works, WorksAlone};
ghost use Rattle.fdc_core.specs.Drives.Lines.{selected_by};
ghost use Rattle.fdc_core.specs.Drives.WordTimes.{Passes, PassesWordTime, WordTimes};

use crate::Fdc;
use drive_model::Drive;

/// A word time: the controller's device step with the selected drive, and the word time of the others.
pub fn pass_word_time<D: Drive>(controller: &mut Fdc, first: &mut D, second: &mut D)
    ensures { PassesWordTime (selected_by controller.old) controller.old (D.state first.old) (D.state second.old)
        controller.new (D.state first.new) (D.state second.new) }
{
    match controller.selected() {
        0 => {
            controller.step(first);
            second.idle();
        }
        1 => {
            controller.step(second);
            first.idle();
        }
        _ => {
            work_alone(controller);
            first.idle();
            second.idle();
        }
    }
}

/// The controller's device step where no drive is selected.
#[inline(never)]
fn work_alone(controller: &mut Fdc)
    ensures { WorksAlone controller.old controller.new }
{
    controller.step_empty();
}

/// Whether it pays to try to make word times at once, at most `most`. A single one costs less alone.
#[inline(always)]
pub fn may_leap(controller: &Fdc, most: u32) -> bool {
    most > 1 && controller.may_skim()
}

/// Makes word times in a row in which no line of the controller changes, at most `most`. Returns how many. Where it
/// returns 0, the next one has to be made alone.
#[inline(never)]
pub fn pass_word_times<D: Drive>(
    controller: &mut Fdc,
    first: &mut D,
    second: &mut D,
    most: u32,
) -> u32
    ensures few { result ≤ most }
    ensures passes { WordTimes result (selected_by controller.old) controller.old (D.state first.old) (D.state second.old)
        controller.new (D.state first.new) (D.state second.new) }
{
    if controller.is_still() {
        first.let_pass(most);
        second.let_pass(most);
        return most;
    }
    match controller.selected() {
        0 => skim(controller, first, second, most),
        1 => skim(controller, second, first, most),
        _ => 0,
    }
}

/// Makes the controller's device steps with the selected drive at once, and as many word times of the other drive.
/// Returns how many, at most `most`.
#[tactic(auto, unfolding(drive_model::specs::Ahead::LetsPass))]
fn skim<D: Drive>(controller: &mut Fdc, drive: &mut D, other: &mut D, most: u32) -> u32
    ensures few { result ≤ most }
    ensures courses { Courses result controller.old (D.state drive.old) controller.new (D.state drive.new) }
    ensures passes { LetsPass result (D.state other.old) (D.state other.new) }
{
    let made = controller.skim(most, drive);
    if made == 0 {
        return 0;
    }
    other.let_pass(made);
    made
}
