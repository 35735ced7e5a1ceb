// How long a word time lasts.
ghost use Rattle.std.specs.Prelude.{◌≡◌, ◌==◌, ◌||◌, if◌then◌else◌};
ghost use Rattle.fdc_sequencer.specs.WordTimes.{nanoseconds};
ghost use Rattle.fdc_phases.specs.Rates.{rate_chosen};

use fdc_core::DataRate;

/// The data rate select register.
const DSR: u16 = 0x3F4;

/// The configuration control register.
const CCR: u16 = 0x3F7;

/// The nanoseconds of a word time after a byte is written to a port. DSR and CCR choose the data rate.
pub(crate) fn word_time_after(port: u16, byte: u8, before: u32) -> u32
    ensures { result ≡ (if port == 0x3F4 || port == 0x3F7 then nanoseconds (rate_chosen byte) else before) }
{
    if port == DSR || port == CCR {
        word_time_of(DataRate::chosen_by(byte))
    } else {
        before
    }
}

/// The nanoseconds of a word time at a data rate. At 300 kbit/s these are 26,666 and two thirds, which is rounded up.
pub(crate) fn word_time_of(rate: DataRate) -> u32
    ensures { result ≡ nanoseconds rate }
{
    match rate {
        DataRate::Kbit500 => 16_000,
        DataRate::Kbit300 => 26_667,
        DataRate::Kbit250 => 32_000,
        DataRate::Mbit1 => 8_000,
    }
}
