// A drive without its faults: the parts that move, and the lines.
ghost use Rattle.std.specs.Prelude.{◌≡◌, ◌↔◌, ◌≤◌, ◌<◌, ◌-◌, ◌||◌, ℕ, Option, Some, is_some, IsErr, IsSome, OnOk, IfOk, IfErr, IfSome, MatchOption, length, slice_index, false, if◌then◌else◌};
ghost use Rattle.std.specs.Option.{ForSome};
ghost use Rattle.raw_image.specs.Disk.{IsDisk};
ghost use Rattle.drive_model.specs.Drive.{track_words, can_replace, rewritten};

use crate::{Heard, Turn};
use flop_base::Rate;
use raw_image::Medium;
use std::mem;

/// The last cylinder that the heads reach.
const LAST_CYLINDER: u8 = 82;

/// The word times that a medium takes to spin up.
const SPIN_UP: u16 = 6250;

/// Replaces a word of a medium that has the track and is not protected, and tells whether it did.
fn replace_word(medium: &mut Medium, cylinder: u8, head: u8, place: u16, word: u16) -> bool
    requires { place < medium.old.words_per_track }
    ensures becomes { Some medium.new ≡ rewritten (Some medium.old) cylinder head place word }
    ensures replaced { result ≡ can_replace (Some medium.old) cylinder head }
    ensures words { medium.new.words_per_track ≡ medium.old.words_per_track }
    ensures valid { IsDisk medium.new }
{
    let cylinders = medium.cylinders();
    if !medium.protected() && cylinder < cylinders && head < medium.heads() {
        medium.set_word(cylinder, head, place, word);
        return true;
    }
    false
}

/// A word that passes under the heads.
#[derive(Clone, Copy)]
pub(crate) struct Passing {
    pub(crate) place: u16,
    pub(crate) index: bool,
}

#[derive(Drop)]
pub(crate) struct Mechanics {
    pub(crate) medium: Option<Medium>,
    pub(crate) cylinder: u8,
    pub(crate) place: u16,
    pub(crate) motor: bool,
    pub(crate) spin: u16,
    pub(crate) change: bool,
    pub(crate) gate: bool,
    pub(crate) cut: bool,
    /// A word of the medium was replaced since it was put in, or since that was last forgotten.
    pub(crate) replaced: bool,
    ghost on_a_cylinder: { cylinder ≤ 82 },
    ghost on_the_track: { place ≤ track_words medium - 1 },
    ghost spun_up: { spin ≤ 6250 },
    ghost at_rest: { motor ≡ false → spin ≡ 0 },
    ghost a_disk: { ForSome medium IsDisk },
}

impl Mechanics {
    ghost use Rattle.drive_model.specs.Drive.{loaded, unloaded, with_motor, with_gate, moved, passed, written, cut_off};
    ghost use Rattle.drive_model.specs.Drive.{at_speed, can_write, at_index, place_under, word_under, words_on, is_protected, rate_of};
    ghost use Rattle.drive_model.specs.Drive.{with_protection, same_length, exchanged};
    ghost use Rattle.drive_model.specs.Mechanics.{state_of, faultless, at_rest};
    ghost use Rattle.drive_model.specs.Ahead.{LetsPass, AreAhead, words_left};

    /// A mechanism without a medium, at cylinder 0, with the change line set.
    pub(crate) fn new() -> Mechanics
        ensures { faultless result ≡ at_rest (Some 0) }
    {
        Mechanics {
            medium: None,
            cylinder: 0,
            place: 0,
            motor: false,
            spin: 0,
            change: true,
            gate: false,
            cut: false,
            replaced: false,
        }
    }

    /// Puts a medium in if none is in.
    pub(crate) fn insert(&mut self, medium: Medium) -> Result<(), Medium>
        ensures refused { IsErr result ↔ IsSome self.old.medium }
        ensures ok { OnOk result
            (faultless self.new ≡ loaded medium (faultless self.old)) }
        ensures back { IfErr result (λ back. back ≡ medium) }
        ensures err { IfErr result (λ _. faultless self.new ≡ faultless self.old) }
    {
        if self.medium.is_some() {
            return Err(medium);
        }
        // Reading its number of words also shows the prover that the medium has its shape.
        let _words = medium.words();
        self.medium = Some(medium);
        self.spin = 0;
        self.place = 0;
        self.change = true;
        self.replaced = false;
        Ok(())
    }

    /// Takes the medium out.
    pub(crate) fn eject(&mut self) -> Option<Medium>
        ensures medium { result ≡ self.old.medium }
        ensures state { faultless self.new ≡ unloaded (faultless self.old) }
    {
        let medium = self.medium.take()?;
        self.spin = 0;
        self.place = 0;
        self.change = true;
        Some(medium)
    }

    pub(crate) fn motor(&mut self, on: bool)
        ensures { faultless self.new ≡ with_motor on (faultless self.old) }
    {
        self.motor = on;
        if !on {
            self.spin = 0;
        }
    }

    /// A pulse that isn't lost.
    pub(crate) fn pulse(&mut self, inward: bool)
        ensures { faultless self.new ≡ moved inward (faultless self.old) }
    {
        if !inward {
            self.cylinder = self.cylinder.saturating_sub(1);
        } else if self.cylinder < LAST_CYLINDER {
            self.cylinder += 1;
        }
        if self.medium.is_some() {
            self.change = false;
        }
    }

    pub(crate) fn protected(&self) -> bool
        ensures { result ≡ is_protected self.now.medium }
    {
        match &self.medium {
            Some(medium) => medium.protected(),
            None => false,
        }
    }

    /// Moves the tab of the medium.
    pub(crate) fn set_protected(&mut self, on: bool)
        ensures { faultless self.new ≡ with_protection on (faultless self.old) }
    {
        if let Some(medium) = &mut self.medium {
            medium.set_protected(on);
        }
    }

    /// Puts a medium in place of the one that is in, where their tracks have the same length.
    pub(crate) fn exchange(&mut self, medium: Medium) -> Result<Medium, Medium>
        ensures refused { IsErr result ↔ (same_length medium self.old.medium ≡ false) }
        ensures ok { OnOk result (faultless self.new ≡ exchanged medium (faultless self.old)) }
        ensures before { IfOk result (λ before. Some before ≡ self.old.medium) }
        ensures back { IfErr result (λ back. back ≡ medium) }
        ensures err { IfErr result (λ _. faultless self.new ≡ faultless self.old) }
    {
        let Some(inside) = &mut self.medium else {
            return Err(medium);
        };
        if inside.words() != medium.words() {
            return Err(medium);
        }
        Ok(mem::replace(inside, medium))
    }

    pub(crate) fn rate(&self) -> Rate
        ensures { result ≡ rate_of self.now.medium }
    {
        match &self.medium {
            Some(medium) => medium.rate(),
            None => Rate::R500,
        }
    }

    pub(crate) fn gate(&mut self, on: bool)
        ensures { faultless self.new ≡ with_gate on (faultless self.old) }
    {
        self.gate = on;
        if on {
            self.cut = false;
        }
    }

    /// A word passes in the next word time.
    pub(crate) fn is_at_speed(&self) -> bool
        ensures { result ≡ at_speed (faultless self.now) }
    {
        self.motor && self.medium.is_some() && self.spin >= SPIN_UP
    }

    /// The place of the word that passes in the next word time.
    pub(crate) fn place_under(&self) -> Option<u16>
        ensures { result ≡ place_under (faultless self.now) }
    {
        if self.is_at_speed() {
            Some(self.place)
        } else {
            None
        }
    }

    /// The gate is open and not cut, and a word passes in the next word time.
    pub(crate) fn can_write(&self) -> bool
        ensures { result ≡ can_write (faultless self.now) }
    {
        self.is_at_speed() && self.gate && !self.cut
    }

    /// Lets a word time pass, and gives the place of the word that passed, if the medium is spun up.
    pub(crate) fn advance(&mut self) -> Option<Passing>
        ensures state { faultless self.new ≡ passed (faultless self.old) }
        ensures passing { is_some result ≡ at_speed (faultless self.old) }
        ensures place { IfSome result (λ word. word.place ≡ self.old.place) }
        ensures within { IfSome result (λ word. word.place < track_words self.old.medium) }
        ensures index { MatchOption result (at_index (faultless self.old) ≡ false)
            (λ word. word.index ≡ at_index (faultless self.old)) }
    {
        let Some(medium) = &self.medium else {
            return None;
        };
        // With the motor off, the medium hasn't spun up.
        if self.spin < SPIN_UP {
            if self.motor {
                self.spin += 1;
            }
            return None;
        }
        let words = medium.words();
        let place = self.place;
        let index = place + 1 == words;
        self.place = if index { 0 } else { place + 1 };
        Some(Passing { place, index })
    }

    /// Lets a word time pass, and tells whether the index came.
    pub(crate) fn pass(&mut self) -> bool
        ensures state { faultless self.new ≡ passed (faultless self.old) }
        ensures index { result ≡ at_index (faultless self.old) }
    {
        match self.advance() {
            Some(passing) => passing.index,
            None => false,
        }
    }

    /// Closes the gate and lets so many word times pass.
    pub(crate) fn let_pass(&mut self, count: u32)
        ensures { (faults : ℕ) (left : Option ℕ)
            → LetsPass count (state_of self.old faults left) (state_of self.new faults left) }
    {
        if count == 0 {
            return;
        }
        self.gate = false;
        let Some(medium) = &self.medium else {
            return;
        };
        if !self.motor {
            return;
        }
        let words = u64::from(medium.words());
        let spinning = count.min(u32::from(SPIN_UP - self.spin));
        self.spin += spinning as u16;
        self.place = ((u64::from(self.place) + u64::from(count - spinning)) % words) as u16;
    }

    /// The word at a place under a head.
    fn word_at(&self, head: u8, place: u16) -> u16
        requires { place < track_words self.now.medium }
        ensures { result ≡ slice_index (words_on self.now.medium self.now.cylinder head) place }
    {
        let Some(medium) = &self.medium else {
            return 0;
        };
        match medium.track(self.cylinder, head) {
            Some(track) => track[place as usize],
            None => 0,
        }
    }

    /// The words of the track under a head that pass next, without its last; none if the medium isn't at speed.
    #[tactic(auto, unfolding(crate::specs::Ahead::AreAhead))]
    pub(crate) fn ahead(&self, head: u8) -> &[u16]
        ensures ahead { AreAhead head result.now (faultless self.now) }
        ensures all { length result.now ≡ words_left head (faultless self.now) }
    {
        if !self.is_at_speed() {
            return &[];
        }
        let Some(medium) = &self.medium else {
            return &[];
        };
        match medium.track(self.cylinder, head) {
            Some(track) => &track[self.place as usize..track.len() - 1],
            None => &[],
        }
    }

    /// Lets a word time pass, and reads the word that passes under a head.
    pub(crate) fn read(&mut self, head: u8) -> Turn
        ensures state { faultless self.new ≡ passed (faultless self.old) }
        ensures word { result.word ≡ word_under (faultless self.old) head }
        ensures index { result.index ≡ at_index (faultless self.old) }
    {
        match self.advance() {
            Some(passing) => Turn {
                word: self.word_at(head, passing.place),
                index: passing.index,
            },
            None => Turn {
                word: 0,
                index: false,
            },
        }
    }

    /// Closes the gate, lets a word time pass, and reads the word that passes under a head.
    pub(crate) fn listen(&mut self, head: u8) -> Heard
        ensures state { faultless self.new ≡ passed (with_gate false (faultless self.old)) }
        ensures word { result.turn.word ≡ word_under (faultless self.old) head }
        ensures index { result.turn.index ≡ at_index (faultless self.old) }
        ensures rate { result.rate ≡ rate_of self.old.medium }
    {
        self.gate = false;
        let rate = self.rate();
        let turn = self.read(head);
        Heard { turn, rate }
    }

    /// Closes the gate and lets a word time pass.
    pub(crate) fn idle(&mut self)
        ensures { faultless self.new ≡ passed (with_gate false (faultless self.old)) }
    {
        self.gate = false;
        self.pass();
    }

    /// Replaces the word at a place under a head, where it can be.
    fn replace(&mut self, head: u8, place: u16, word: u16)
        requires { place < track_words self.old.medium }
        ensures { faultless self.new ≡ record (faultless self.old) {
          medium = rewritten self.old.medium self.old.cylinder head place word;
          replaced = self.old.replaced || can_replace self.old.medium self.old.cylinder head;
        } }
    {
        let cylinder = self.cylinder;
        if let Some(medium) = &mut self.medium {
            if replace_word(medium, cylinder, head, place, word) {
                self.replaced = true;
            }
        }
    }

    /// Lets a word time pass, and writes the word that passes under a head, where the gate is open and not cut.
    pub(crate) fn write(&mut self, head: u8, word: u16) -> bool
        ensures state { faultless self.new ≡ written head word (faultless self.old) }
        ensures index { result ≡ at_index (faultless self.old) }
    {
        let Some(passing) = self.advance() else {
            return false;
        };
        if self.gate && !self.cut {
            self.replace(head, passing.place, word);
        }
        passing.index
    }

    /// Lets a word time pass, and cuts the gate.
    pub(crate) fn cut_off(&mut self) -> bool
        ensures state { faultless self.new ≡ cut_off (faultless self.old) }
        ensures index { result ≡ at_index (faultless self.old) }
    {
        let index = self.pass();
        self.cut = true;
        index
    }
}
