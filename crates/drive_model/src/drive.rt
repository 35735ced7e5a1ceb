// What every drive does.
ghost use Rattle.std.specs.Prelude.{◌≡◌, ◌↔◌, IsTrue, IsErr, IsSome, OnOk, IfErr, is_some, false, Some, length};
ghost use Rattle.drive_model.specs.Drive.{DriveState, Becomes, InRange};
ghost use Rattle.drive_model.specs.Drive.{loaded, unloaded, with_motor, with_gate, passed, at_index};
ghost use Rattle.drive_model.specs.Drive.{is_protected, rate_of, Pulses, Reads, Writes};
ghost use Rattle.drive_model.specs.Ahead.{LetsPass, AreAhead, words_left};

use flop_base::Rate;
use raw_image::Medium;

/// What passes under a head in one word time.
#[derive(Clone, Copy, Debug, PartialEq, Eq)]
pub struct Turn {
    /// The sixteen cells, the first in the highest bit; 0000 where no word passes.
    pub word: u16,
    /// It was the last word of the track.
    pub index: bool,
}

/// What a controller that listens gets from a drive in one word time.
#[derive(Clone, Copy, Debug, PartialEq, Eq)]
pub struct Heard {
    pub turn: Turn,
    /// The rate of the medium, R500 where none is in.
    pub rate: Rate,
}

/// A diskette drive with one medium at most.
///
/// A drive may have faults: a pulse is lost, a word reads as 0000, a write gate is cut. A fault comes only in a pulse,
/// a read or a write, and it is counted there. In every other call the count of faults stays, and so does the number of
/// faults left. The index and the change line have no faults.
pub trait Drive: Drop {
    /// The state that the contracts of the calls are about.
    ghost state: { Self → DriveState };

    /// Puts a medium in. Where one is in already, the new one is given back.
    fn insert(&mut self, medium: Medium) -> Result<(), Medium>
        ensures refused { IsErr result ↔ IsSome (state self.old).medium }
        ensures ok { OnOk result
            (state self.new ≡ loaded medium (state self.old)) }
        ensures err { IfErr result (λ back. (back ≡ medium) × (state self.new ≡ state self.old)) };

    /// Takes the medium out; nothing where none is in.
    fn eject(&mut self) -> Option<Medium>
        ensures medium { result ≡ (state self.old).medium }
        ensures becomes { state self.new ≡ unloaded (state self.old) };

    /// Turns the motor on or off. With it on, a medium is at speed after 6,250 word times.
    fn motor(&mut self, on: bool)
        ensures becomes { state self.new ≡ with_motor on (state self.old) };

    /// A step pulse, to a higher cylinder if `inward` is true. The heads stay within cylinders 0 to 82.
    fn pulse(&mut self, inward: bool)
        ensures moves { Pulses inward (state self.old) (state self.new) };

    /// The heads stand over cylinder 0.
    fn track0(&self) -> bool
        ensures { IsTrue result ↔ ((state self.now).cylinder ≡ 0) };

    /// The change line (PC/AT): set when a medium is put in or taken out, cleared by a pulse that isn't lost while one
    /// is in.
    fn changed(&self) -> bool
        ensures { result ≡ (state self.now).change };

    /// A write-protected medium is in.
    fn protected(&self) -> bool
        ensures { result ≡ is_protected (state self.now).medium };

    /// The rate of the medium, R500 where none is in.
    fn rate(&self) -> Rate
        ensures { result ≡ rate_of (state self.now).medium };

    /// Opens or closes the write gate. A gate that opens isn't cut any more.
    fn gate(&mut self, on: bool)
        ensures becomes { state self.new ≡ with_gate on (state self.old) };

    /// Lets one word time pass, and tells whether the index came at its end.
    fn pass(&mut self) -> bool
        ensures becomes { state self.new ≡ passed (state self.old) }
        ensures index { result ≡ at_index (state self.old) }
        ensures range_before { InRange (state self.old) }
        ensures range { InRange (state self.new) };

    /// Lets one word time pass, and reads the word under a head, 0 or 1. The word is 0000 without a medium at speed, or
    /// where the medium has no such track.
    fn read_word(&mut self, head: u8) -> Turn
        ensures becomes { Becomes (passed (state self.old)) (state self.old) (state self.new) }
        ensures word { Reads head (state self.old) result.word (state self.new) }
        ensures index { result.index ≡ at_index (state self.old) }
        ensures range_before { InRange (state self.old) }
        ensures range { InRange (state self.new) };

    /// Closes the gate, reads a word as `read_word` does, and tells the rate of the medium. So a boxed drive is called
    /// only once in a word time.
    fn listen(&mut self, head: u8) -> Heard
        ensures becomes { Becomes (passed (with_gate false (state self.old))) (state self.old) (state self.new) }
        ensures word { Reads head (state self.old) result.turn.word (state self.new) }
        ensures index { result.turn.index ≡ at_index (state self.old) }
        ensures rate { result.rate ≡ rate_of (state self.old).medium }
    {
        self.gate(false);
        let rate = self.rate();
        let turn = self.read_word(head);
        Heard { turn, rate }
    }

    /// Lets one word time pass, writes the word under a head where the gate is open and not cut, and tells whether the
    /// index came at its end. A protected medium stays as it is.
    fn write_word(&mut self, head: u8, word: u16) -> bool
        ensures writes { Writes head word (state self.old) (state self.new) }
        ensures index { result ≡ at_index (state self.old) }
        ensures range_before { InRange (state self.old) }
        ensures range { InRange (state self.new) };

    /// Words that are certain to pass next under a head, in their order, as `read_word` would give them. The index
    /// comes after none of them. If no fault can come any more, these are all words of the track that pass before its
    /// last one. Else there may be fewer or none: a drive with a planned dropout gives only the words before it.
    fn ahead(&self, head: u8) -> &[u16]
        ensures ahead { AreAhead head result.now (state self.now) }
        ensures all { (state self.now).left ≡ Some 0 → length result.now ≡ words_left head (state self.now) };

    /// Closes the gate and lets one word time pass, as a drive does that isn't selected.
    fn idle(&mut self)
        ensures { state self.new ≡ passed (with_gate false (state self.old)) }
    {
        self.gate(false);
        self.pass();
    }

    /// Closes the gate and lets so many word times pass. Where the number is 0 the gate stays as it is.
    fn let_pass(&mut self, count: u32)
        ensures passes { LetsPass count (state self.old) (state self.new) }
    {
        for _i in 0..count {
            self.idle();
        }
    }

    /// The count of faults, which stays at its last value.
    fn faults(&self) -> u64
        ensures count { result ≡ (state self.now).faults }
        ensures range { InRange (state self.now) };
}
