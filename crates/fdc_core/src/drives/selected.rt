// The lines of the selected drive.
ghost use Rattle.std.specs.Prelude.{◌≡◌};
ghost use Rattle.fdc_core.specs.Drives.Lines.{lines_of_drive, lines_of_selected, selected_by};

use crate::{Fdc, Lines};
use drive_model::Drive;

/// The lines of an absent drive.
const ABSENT: Lines = Lines {
    track0: false,
    protected: false,
    changed: false,
};

/// The lines of the selected drive. Those of bays 2 and 3 are absent.
pub fn lines<D: Drive>(controller: &Fdc, first: &D, second: &D) -> Lines
    ensures { result ≡ lines_of_selected (selected_by controller.now) (D.state first.now) (D.state second.now) }
{
    match controller.selected() {
        0 => lines_of_drive(first),
        1 => lines_of_drive(second),
        _ => ABSENT,
    }
}

/// The lines of a drive.
fn lines_of_drive<D: Drive>(drive: &D) -> Lines
    ensures { result ≡ lines_of_drive (D.state drive.now) }
{
    Lines {
        track0: drive.track0(),
        protected: drive.protected(),
        changed: drive.changed(),
    }
}
