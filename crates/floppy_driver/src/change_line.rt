// Whether the last change of the diskette that was seen has been acknowledged.
ghost use Rattle.std.specs.Prelude.{◌≡◌, true, false, if◌then◌else◌};

use std::marker::Model;

/// A bay's gate. It is closed at first, and each change of the diskette closes it. It opens when the user of the bay
/// acknowledges that another diskette may be in. Contracts see whether it is acknowledged.
#[derive(Clone, Copy)]
pub struct Gate {
    acknowledged: bool,
}

impl Model for Gate {
    ghost use Rattle.std.specs.Prelude.{Bool};

    ghost Value = { Bool };

    ghost view = { λ gate. gate.acknowledged };

    ghost inverse = { λ is. record { acknowledged = is } };
}

impl Gate {
    /// A gate that isn't acknowledged.
    pub fn new() -> Gate
        ensures { result ≡ false }
    {
        Gate {
            acknowledged: false,
        }
    }

    /// Shows the drive's change line (PC/AT). A line that is set closes the gate.
    pub fn see(&mut self, changed: bool)
        ensures { self.new ≡ (if changed then false else self.old) }
    {
        if changed {
            self.acknowledged = false;
        }
    }

    /// Opens the gate: the user of the bay knows that another diskette may be in.
    pub fn acknowledge(&mut self)
        ensures { self.new ≡ true }
    {
        self.acknowledged = true;
    }

    /// Whether the gate was acknowledged, and no change was seen since.
    pub fn is_acknowledged(&self) -> bool
        ensures { result ≡ self.now }
    {
        self.acknowledged
    }
}
