// The status of a script.
ghost use Rattle.std.specs.Prelude.{◌≡◌};
ghost use Rattle.commands.specs.Common.{whole_status};
ghost use Rattle.commands.specs.Leading.{IsTold};

use flop_base::Status;

/// The status of a script that went on to its end: 1 where something was refused, else 0.
pub fn whole_status(refused: bool) -> Status
    ensures value { result ≡ whole_status refused }
    ensures told { IsTold result }
{
    if refused {
        Status::SomeRefused
    } else {
        Status::AllOk
    }
}
