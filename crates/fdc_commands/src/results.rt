// The result bytes of a data command.
use fdc_registers::{Flags, St0, St1, St2};
use flop_base::Chrn;

/// The results of a data command or READ ID (82077AA, result phase).
#[derive(Clone, Copy, PartialEq, Eq, Debug)]
pub struct Results {
    pub st0: St0,
    pub st1: St1,
    pub st2: St2,
    /// The last four bytes: cylinder, head, record and size code.
    pub key: Chrn,
}

impl Results {
    ghost use Rattle.std.specs.Prelude.{◌≡◌};
    ghost use Rattle.fdc_commands.specs.Results.{result_bytes};

    /// The seven result bytes in the order in which the host reads them: the three status registers, then C, H, R, N.
    pub fn bytes(self) -> [u8; 7]
        ensures { result ≡ result_bytes self }
    {
        let Chrn { c, h, r, n } = self.key;
        [
            self.st0.bits(),
            self.st1.bits(),
            self.st2.bits(),
            c,
            h,
            r,
            n,
        ]
    }
}
