// The data rates, and whether one fits a medium.
ghost use Rattle.std.specs.Prelude.{◌≡◌};
ghost use Rattle.fdc_phases.specs.Rates.{rate_fits, rate_chosen};

use flop_base::Rate;

/// A data rate, as bits 1 and 0 of DSR and CCR choose it. The two rates that media have come first, in the order of
/// `Rate`.
#[derive(Clone, Copy, PartialEq, Eq, Debug)]
pub enum DataRate {
    /// 00: 500 kbit/s.
    Kbit500,
    /// 10: 250 kbit/s, the rate at power-up.
    Kbit250,
    /// 01: 300 kbit/s.
    Kbit300,
    /// 11: 1 Mbit/s.
    Mbit1,
}

impl DataRate {
    /// The rate that a byte written to DSR or CCR chooses.
    pub fn chosen_by(byte: u8) -> DataRate
        ensures { result ≡ rate_chosen byte }
    {
        match byte % 4 {
            0 => DataRate::Kbit500,
            1 => DataRate::Kbit300,
            2 => DataRate::Kbit250,
            _ => DataRate::Mbit1,
        }
    }

    /// Whether a medium of this rate can be read and written at the data rate.
    pub fn fits(self, medium: Rate) -> bool
        ensures { result ≡ rate_fits self medium }
    {
        match medium {
            Rate::R500 => matches!(self, DataRate::Kbit500),
            Rate::R250 => matches!(self, DataRate::Kbit250),
        }
    }
}
