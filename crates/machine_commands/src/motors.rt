// The motors, and the output register that turns them on.
ghost use Rattle.std.specs.Prelude.{◌≡◌, ◌≤◌};

use fdc_registers::{Dor, Flags};

/// Which motors are on.
#[derive(Clone, Copy, Debug, PartialEq, Eq)]
pub struct Motors {
    pub first: bool,
    pub second: bool,
}

impl Motors {
    ghost use Rattle.machine_commands.specs.Ready.{dor_with};
    ghost use Rattle.machine_commands.specs.Motored.{with_motor_of};

    /// No motor is on.
    pub const OFF: Motors = Motors {
        first: false,
        second: false,
    };

    /// The motors that are on, with that of a bay added.
    pub fn with(self, bay: u8) -> Motors
        requires { bay ≤ 1 }
        ensures { result ≡ with_motor_of bay self }
    {
        Motors {
            first: self.first || bay == 0,
            second: self.second || bay == 1,
        }
    }

    /// DOR (82077AA) with these motors on and a bay selected, out of reset and with INT and DRQ enabled.
    pub fn dor(self, bay: u8) -> u8
        requires { bay ≤ 1 }
        ensures { result ≡ dor_with self bay }
    {
        let first = if self.first { Dor::MOTOR_0.bits() } else { 0 };
        let second = if self.second { Dor::MOTOR_1.bits() } else { 0 };
        let out_of_reset = Dor::NOT_RESET.union(Dor::GATE).bits();
        out_of_reset + first + second + bay
    }
}
