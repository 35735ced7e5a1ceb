// The two drives of a bench.
ghost use Rattle.std.specs.Prelude.{◌≡◌};
ghost use Rattle.test_driver.specs.Common.{in_bay, with_bay};

use crate::drive::BenchDrive;
use flop_base::Two;

/// Takes the drive of a bay out; another drive is to take its place.
pub(crate) fn take(drives: &mut Two<BenchDrive>, bay: u8) -> BenchDrive
    ensures taken { result ≡ in_bay drives.old bay }
    ensures left { (drive : BenchDrive) → with_bay drives.new bay drive ≡ with_bay drives.old bay drive }
{
    drives.replace(bay, BenchDrive::empty())
}
