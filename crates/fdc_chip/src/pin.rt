// The reset pin (82077AA data sheet, "RESET pin").
ghost use Rattle.std.specs.Prelude.{◌≡◌};
ghost use Rattle.fdc_chip.specs.Chips.{chip_state};
ghost use Rattle.fdc_chip.specs.Pins.{pin_settings, ResetsByPin};

use crate::chip::Chip;
use crate::settings::Settings;
use drive_model::Inspect;

/// The digital output register. With 00 in it the controller is in reset, the motors are off, and drive 0 is selected.
const DOR: u16 = 0x3F2;

/// The configuration control register; then the rate in it at power-up, 250 kbit/s.
const CCR: u16 = 0x3F7;

const RATE_AT_POWER_UP: u8 = 2;

impl Settings {
    /// The settings after the reset pin: as at power-up, except for what SPECIFY set.
    fn behind_pin(self) -> Settings
        ensures { result ≡ pin_settings self }
    {
        Settings {
            step_rate: self.step_rate,
            head_load: self.head_load,
            ..Settings::new()
        }
    }
}

impl<D: Inspect> Chip<D> {
    /// The reset pin. What is under way ends, and all registers are as at power-up except for those that SPECIFY sets,
    /// whatever LOCK says. The controller is held in reset until DOR lets it out. Media, heads and straps stay.
    pub fn reset_by_pin(&mut self)
        ensures { ResetsByPin (chip_state D.state self.old) (chip_state D.state self.new) }
    {
        let settings = self.settings.behind_pin();
        self.write(DOR, 0);
        self.write(CCR, RATE_AT_POWER_UP);
        self.settings = settings;
        self.tape = 0;
    }
}
