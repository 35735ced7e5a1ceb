// Rates by their numbers.
ghost use Rattle.std.specs.Prelude.{◌≡◌};
ghost use Rattle.telwyddus_c.specs.Rates.{rate_named};

use flop_base::Rate;

/// The rate of so many kbit/s, 500 or 250.
pub(crate) fn rate_named(kilobits: u16) -> Option<Rate>
    ensures { result ≡ rate_named kilobits }
{
    if kilobits == 500 {
        Some(Rate::R500)
    } else if kilobits == 250 {
        Some(Rate::R250)
    } else {
        None
    }
}
