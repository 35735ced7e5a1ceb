// A drive without faults.
ghost use Rattle.std.specs.Prelude.{◌≡◌, Some};

mod saving;

use crate::mechanics::Mechanics;
use crate::{Drive, Heard, Inspect, Turn};
use flop_base::Rate;
use raw_image::Medium;

/// A drive that has no faults.
#[derive(Drop)]
pub struct PlainDrive {
    mechanics: Mechanics,
}

impl PlainDrive {
    ghost use Rattle.drive_model.specs.Mechanics.{at_rest};
    ghost use Rattle.drive_model.specs.PlainDrive.{plain_state};

    /// A drive with no medium, at cylinder 0, its motor off, its change line set.
    pub fn new() -> PlainDrive
        ensures { plain_state result ≡ at_rest (Some 0) }
    {
        PlainDrive {
            mechanics: Mechanics::new(),
        }
    }
}

impl Drive for PlainDrive {
    ghost use Rattle.drive_model.specs.PlainDrive.{plain_state};

    ghost state = { plain_state };

    fn insert(&mut self, medium: Medium) -> Result<(), Medium> {
        self.mechanics.insert(medium)
    }

    fn eject(&mut self) -> Option<Medium> {
        self.mechanics.eject()
    }

    fn motor(&mut self, on: bool) {
        self.mechanics.motor(on);
    }

    fn pulse(&mut self, inward: bool) {
        self.mechanics.pulse(inward);
    }

    fn track0(&self) -> bool {
        self.mechanics.cylinder == 0
    }

    fn changed(&self) -> bool {
        self.mechanics.change
    }

    fn protected(&self) -> bool {
        self.mechanics.protected()
    }

    fn rate(&self) -> Rate {
        self.mechanics.rate()
    }

    fn gate(&mut self, on: bool) {
        self.mechanics.gate(on);
    }

    fn pass(&mut self) -> bool {
        self.mechanics.pass()
    }

    fn read_word(&mut self, head: u8) -> Turn {
        self.mechanics.read(head)
    }

    fn listen(&mut self, head: u8) -> Heard {
        self.mechanics.listen(head)
    }

    fn write_word(&mut self, head: u8, word: u16) -> bool {
        self.mechanics.write(head, word)
    }

    fn ahead(&self, head: u8) -> &[u16] {
        self.mechanics.ahead(head)
    }

    fn idle(&mut self) {
        self.mechanics.idle();
    }

    fn let_pass(&mut self, count: u32) {
        self.mechanics.let_pass(count);
    }

    fn faults(&self) -> u64 {
        0
    }
}

impl Inspect for PlainDrive {
    fn medium(&self) -> Option<&Medium> {
        self.mechanics.medium.as_ref()
    }

    fn cylinder(&self) -> u8 {
        self.mechanics.cylinder
    }

    fn place(&self) -> Option<u16> {
        self.mechanics.place_under()
    }

    fn is_gate_open(&self) -> bool {
        self.mechanics.gate
    }

    fn is_written(&self) -> bool {
        self.mechanics.replaced
    }

    fn forget_written(&mut self) {
        self.mechanics.replaced = false;
    }

    fn set_protected(&mut self, on: bool) {
        self.mechanics.set_protected(on);
    }

    fn exchange(&mut self, medium: Medium) -> Result<Medium, Medium> {
        self.mechanics.exchange(medium)
    }
}
