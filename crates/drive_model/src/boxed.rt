// A drive in a box, whatever drive it is.
use crate::{Drive, Heard, Turn};
use flop_base::Rate;
use raw_image::Medium;

impl Drive for Box<dyn Drive> {
    ghost state = { λ b. (Drive-box b).state b.value };

    fn insert(&mut self, medium: Medium) -> Result<(), Medium> {
        (**self).insert(medium)
    }

    fn eject(&mut self) -> Option<Medium> {
        (**self).eject()
    }

    fn motor(&mut self, on: bool) {
        (**self).motor(on);
    }

    fn pulse(&mut self, inward: bool) {
        (**self).pulse(inward);
    }

    fn track0(&self) -> bool {
        (**self).track0()
    }

    fn changed(&self) -> bool {
        (**self).changed()
    }

    fn protected(&self) -> bool {
        (**self).protected()
    }

    fn rate(&self) -> Rate {
        (**self).rate()
    }

    fn gate(&mut self, on: bool) {
        (**self).gate(on);
    }

    fn pass(&mut self) -> bool {
        (**self).pass()
    }

    fn read_word(&mut self, head: u8) -> Turn {
        (**self).read_word(head)
    }

    fn listen(&mut self, head: u8) -> Heard {
        (**self).listen(head)
    }

    fn write_word(&mut self, head: u8, word: u16) -> bool {
        (**self).write_word(head, word)
    }

    fn ahead(&self, head: u8) -> &[u16] {
        (**self).ahead(head)
    }

    fn idle(&mut self) {
        (**self).idle();
    }

    fn let_pass(&mut self, count: u32) {
        (**self).let_pass(count);
    }

    fn faults(&self) -> u64 {
        (**self).faults()
    }
}
