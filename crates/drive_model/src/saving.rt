// A planned fault and the parts that move as bytes.
ghost use Rattle.std.specs.Prelude.{◌≡◌, ◌≤◌, false};

use crate::Fault;
use crate::limits::{limited_cylinder, limited_place, limited_spin};
use crate::mechanics::Mechanics;
use crate::media::{load_medium, save_medium};
use flop_base::NoMemory;
use saved_state::{Saved, SavedBytes, SavedWhole, Source};
use std::alloc::Global;

impl Saved for Fault {
    ghost use Rattle.std.specs.Prelude.{⊤};
    ghost use Rattle.drive_model.specs.Saving.{spelled_fault};

    ghost spelled = { spelled_fault };

    ghost Fits = { λ _. ⊤ };

    fn save(&self, to: &mut SavedBytes) {
        match *self {
            Fault::Dropout { c, h, word, count } => {
                to.byte(0);
                c.save(to);
                h.save(to);
                word.save(to);
                count.save(to);
            }
            Fault::Cut { c, h, word, count } => {
                to.byte(1);
                c.save(to);
                h.save(to);
                word.save(to);
                count.save(to);
            }
            Fault::Lose { c, count } => {
                to.byte(2);
                c.save(to);
                count.save(to);
            }
            Fault::Stick { c, count } => {
                to.byte(3);
                c.save(to);
                count.save(to);
            }
        }
    }

    fn load(from: &mut Source<'_>) -> Fault {
        match from.byte() {
            0 => {
                let c = u8::load(from);
                let h = u8::load(from);
                let word = u16::load(from);
                let count = u32::load(from);
                Fault::Dropout { c, h, word, count }
            }
            1 => {
                let c = u8::load(from);
                let h = u8::load(from);
                let word = u16::load(from);
                let count = u32::load(from);
                Fault::Cut { c, h, word, count }
            }
            2 => {
                let c = u8::load(from);
                let count = u32::load(from);
                Fault::Lose { c, count }
            }
            _ => {
                let c = u8::load(from);
                let count = u32::load(from);
                Fault::Stick { c, count }
            }
        }
    }
}

impl SavedWhole for Mechanics {
    ghost use Rattle.std.specs.Prelude.{⊤};
    ghost use Rattle.drive_model.specs.Saving.{spelled_mechanics};

    ghost spelled = { spelled_mechanics };

    ghost Fits = { λ _. ⊤ };

    fn save(&self, alloc: Global, to: &mut SavedBytes) {
        save_medium(alloc, &self.medium, to);
        self.cylinder.save(to);
        self.place.save(to);
        self.spin.save(to);
        self.motor.save(to);
        self.change.save(to);
        self.gate.save(to);
        self.cut.save(to);
        self.replaced.save(to);
    }

    fn load(alloc: Global, from: &mut Source<'_>) -> Result<Mechanics, NoMemory> {
        let medium = load_medium(alloc, from)?;
        let cylinder = limited_cylinder(u8::load(from));
        let place = limited_place(u16::load(from), &medium);
        let spun = u16::load(from);
        let motor = bool::load(from);
        let spin = spin_of(motor, spun);
        let change = bool::load(from);
        let gate = bool::load(from);
        let cut = bool::load(from);
        let replaced = bool::load(from);
        Ok(Mechanics {
            medium,
            cylinder,
            place,
            motor,
            spin,
            change,
            gate,
            cut,
            replaced,
        })
    }
}

/// The time of spinning up in word times, if it is at most 6,250 and the motor is on; else 0.
fn spin_of(motor: bool, spin: u16) -> u16
    ensures spun_up { result ≤ 6250 }
    ensures rests { motor ≡ false → result ≡ 0 }
    ensures same { spin ≤ 6250 → (motor ≡ false → spin ≡ 0) → result ≡ spin }
{
    if motor { limited_spin(spin) } else { 0 }
}
