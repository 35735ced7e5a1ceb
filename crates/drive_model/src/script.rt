// A drive whose faults are planned.
ghost use Rattle.std.specs.Prelude.{◌≡◌, ◌≤◌, ◌↔◌, length, false, Some, IsErr, IsSome, OnOk, IfOk, IfErr};
ghost use Rattle.std.specs.Bool.{OnTrue, OnFalse};
ghost use Rattle.flop_base.specs.Counts.{last_count, Rose};
ghost use Rattle.drive_model.specs.Drive.{Becomes, InRange, loaded, unloaded, with_motor, with_gate, moved, passed, written, forgotten, cut_off, at_index, word_under, rate_of, Pulses, Reads, Writes};
ghost use Rattle.drive_model.specs.Ahead.{LetsPass, AreAhead, words_left};
ghost use Rattle.drive_model.specs.Fault.{comes};

mod saving;

use crate::fault::Event;
use crate::mechanics::Mechanics;
use crate::plan::Plan;
use crate::{Drive, Fault, Heard, Inspect, Turn};
use flop_base::Rate;
use raw_image::Medium;

/// A drive that has the faults of a list, and no others. Of the faults that meet an event, the first in the list
/// comes.
#[derive(Drop)]
pub struct ScriptDrive {
    mechanics: Mechanics,
    plan: Plan,
    faults: u64,
    ghost counted: { faults ≤ last_count },
}

impl ScriptDrive {
    ghost use Rattle.drive_model.specs.Mechanics.{at_rest};
    ghost use Rattle.drive_model.specs.Fault.{total_left};
    ghost use Rattle.drive_model.specs.ScriptDrive.{script_state, script_of, told, Accounts};
    ghost use Rattle.drive_model.specs.ScriptDrive.{loses, drops, cuts, pulse_of, read_of, write_of};

    /// A drive with no medium, at cylinder 0, its motor off, its change line set.
    pub fn new(faults: Vec<Fault>) -> ScriptDrive
        ensures state { script_state result ≡ at_rest (told 0 (total_left faults.items)) }
        ensures script { script_of result ≡ faults.items }
    {
        ScriptDrive {
            mechanics: Mechanics::new(),
            plan: Plan::new(faults),
            faults: 0,
        }
    }

    /// Plans these faults in place of those that can still come. All else stays, the count of faults too.
    pub fn replan(&mut self, faults: Vec<Fault>)
        ensures script { script_of self.new ≡ faults.items }
        ensures state { script_state self.new ≡ record (script_state self.old) {
          left = told (script_state self.old).faults (total_left faults.items);
        } }
    {
        self.plan = Plan::new(faults);
    }

    /// Takes a fault off the list, if one is planned for this event, and counts it.
    fn fails(&mut self, event: Event) -> bool
        ensures comes { result ≡ comes (script_of self.old) event }
        ensures accounts { Accounts result event self.old self.new }
        ensures rose { OnTrue result
            (Rose (script_state self.old).faults (script_state self.new).faults) }
        ensures becomes { Becomes (script_state self.old)
            (script_state self.old) (script_state self.new) }
    {
        let comes = self.plan.take(event);
        if comes {
            self.faults = self.faults.saturating_add(1);
        }
        comes
    }

    /// The pulse is lost.
    fn loses(&mut self, inward: bool) -> bool
        ensures loses { result ≡ loses self.old inward }
        ensures accounts { Accounts result
            (pulse_of (script_state self.old) inward) self.old self.new }
        ensures rose { OnTrue result
            (Rose (script_state self.old).faults (script_state self.new).faults) }
        ensures becomes { Becomes (script_state self.old)
            (script_state self.old) (script_state self.new) }
    {
        let c = self.mechanics.cylinder;
        self.fails(Event::Pulse { c, inward })
    }

    /// The word that passes drops out.
    fn drops(&mut self, head: u8) -> bool
        ensures drops { result ≡ drops self.old head }
        ensures accounts { Accounts result
            (read_of (script_state self.old) head) self.old self.new }
        ensures rose { OnTrue result
            (Rose (script_state self.old).faults (script_state self.new).faults) }
        ensures becomes { Becomes (script_state self.old)
            (script_state self.old) (script_state self.new) }
    {
        let event = Event::Read {
            c: self.mechanics.cylinder,
            h: head,
            word: self.mechanics.place,
        };
        self.mechanics.is_at_speed() && self.fails(event)
    }

    /// The open gate is cut at the word that passes.
    fn cuts(&mut self, head: u8) -> bool
        ensures cuts { result ≡ cuts self.old head }
        ensures accounts { Accounts result
            (write_of (script_state self.old) head) self.old self.new }
        ensures rose { OnTrue result
            (Rose (script_state self.old).faults (script_state self.new).faults) }
        ensures becomes { Becomes (script_state self.old)
            (script_state self.old) (script_state self.new) }
    {
        let event = Event::Write {
            c: self.mechanics.cylinder,
            h: head,
            word: self.mechanics.place,
        };
        self.mechanics.can_write() && self.fails(event)
    }
}

impl Drive for ScriptDrive {
    ghost use Rattle.drive_model.specs.ScriptDrive.{script_state, Accounts, NoFault, NoneComes};
    ghost use Rattle.drive_model.specs.ScriptDrive.{loses, drops, cuts, pulse_of, read_of, write_of};

    ghost state = { script_state };

    fn insert(&mut self, medium: Medium) -> Result<(), Medium>
        ensures refused { IsErr result ↔ IsSome (script_state self.old).medium }
        ensures ok { OnOk result (script_state self.new ≡ loaded medium (script_state self.old)) }
        ensures err { IfErr result (λ back. (back ≡ medium) × (script_state self.new ≡ script_state self.old)) }
        ensures no_fault { NoFault self.old self.new }
    {
        self.mechanics.insert(medium)
    }

    fn eject(&mut self) -> Option<Medium>
        ensures medium { result ≡ (script_state self.old).medium }
        ensures becomes { script_state self.new ≡ unloaded (script_state self.old) }
        ensures no_fault { NoFault self.old self.new }
    {
        self.mechanics.eject()
    }

    fn motor(&mut self, on: bool)
        ensures becomes { script_state self.new ≡ with_motor on (script_state self.old) }
        ensures no_fault { NoFault self.old self.new }
    {
        self.mechanics.motor(on);
    }

    fn pulse(&mut self, inward: bool)
        ensures moves { Pulses inward (script_state self.old) (script_state self.new) }

        ensures lost { OnTrue (loses self.old inward)
            (Becomes (script_state self.old) (script_state self.old) (script_state self.new)) }
        ensures moved { OnFalse (loses self.old inward)
            (Becomes (moved inward (script_state self.old))
            (script_state self.old) (script_state self.new)) }
        ensures accounts { Accounts (loses self.old inward)
            (pulse_of (script_state self.old) inward) self.old self.new }
    {
        let lost = self.loses(inward);
        if !lost {
            self.mechanics.pulse(inward);
        }
    }

    fn track0(&self) -> bool {
        self.mechanics.cylinder == 0
    }

    fn changed(&self) -> bool {
        self.mechanics.change
    }

    fn protected(&self) -> bool {
        self.mechanics.protected()
    }

    fn rate(&self) -> Rate {
        self.mechanics.rate()
    }

    fn gate(&mut self, on: bool)
        ensures becomes { script_state self.new ≡ with_gate on (script_state self.old) }
        ensures no_fault { NoFault self.old self.new }
    {
        self.mechanics.gate(on);
    }

    fn pass(&mut self) -> bool
        ensures becomes { script_state self.new ≡ passed (script_state self.old) }
        ensures index { result ≡ at_index (script_state self.old) }
        ensures range_before { InRange (script_state self.old) }
        ensures range { InRange (script_state self.new) }
        ensures no_fault { NoFault self.old self.new }
    {
        self.mechanics.pass()
    }

    fn read_word(&mut self, head: u8) -> Turn
        ensures becomes { Becomes (passed (script_state self.old))
            (script_state self.old) (script_state self.new) }
        ensures word { Reads head (script_state self.old) result.word (script_state self.new) }
        ensures index { result.index ≡ at_index (script_state self.old) }
        ensures range_before { InRange (script_state self.old) }
        ensures range { InRange (script_state self.new) }

        ensures dropped { OnTrue (drops self.old head) (result.word ≡ 0) }
        ensures read { OnFalse (drops self.old head)
            (result.word ≡ word_under (script_state self.old) head) }
        ensures accounts { Accounts (drops self.old head)
            (read_of (script_state self.old) head) self.old self.new }
    {
        let drops = self.drops(head);
        let passing = self.mechanics.read(head);
        if drops {
            Turn { word: 0, ..passing }
        } else {
            passing
        }
    }

    fn listen(&mut self, head: u8) -> Heard
        ensures becomes { Becomes (passed (with_gate false (script_state self.old)))
            (script_state self.old) (script_state self.new) }
        ensures word { Reads head (script_state self.old) result.turn.word (script_state self.new) }
        ensures index { result.turn.index ≡ at_index (script_state self.old) }
        ensures rate { result.rate ≡ rate_of (script_state self.old).medium }

        ensures dropped { OnTrue (drops self.old head) (result.turn.word ≡ 0) }
        ensures read { OnFalse (drops self.old head)
            (result.turn.word ≡ word_under (script_state self.old) head) }
        ensures accounts { Accounts (drops self.old head)
            (read_of (script_state self.old) head) self.old self.new }
    {
        let dropped = self.drops(head);
        let heard = self.mechanics.listen(head);
        if dropped {
            Heard {
                turn: Turn {
                    word: 0,
                    ..heard.turn
                },
                ..heard
            }
        } else {
            heard
        }
    }

    fn write_word(&mut self, head: u8, word: u16) -> bool
        ensures writes { Writes head word (script_state self.old) (script_state self.new) }
        ensures index { result ≡ at_index (script_state self.old) }
        ensures range_before { InRange (script_state self.old) }
        ensures range { InRange (script_state self.new) }

        ensures cut { OnTrue (cuts self.old head)
            (Becomes (cut_off (script_state self.old))
            (script_state self.old) (script_state self.new)) }
        ensures written { OnFalse (cuts self.old head)
            (Becomes (written head word (script_state self.old))
            (script_state self.old) (script_state self.new)) }
        ensures accounts { Accounts (cuts self.old head)
            (write_of (script_state self.old) head) self.old self.new }
    {
        if self.cuts(head) {
            self.mechanics.cut_off()
        } else {
            self.mechanics.write(head, word)
        }
    }

    #[tactic(auto, unfolding(crate::specs::Ahead::AreAhead))]
    fn ahead(&self, head: u8) -> &[u16]
        ensures ahead { AreAhead head result.now (script_state self.now) }
        ensures all { (script_state self.now).left ≡ Some 0 → length result.now ≡ words_left head (script_state self.now) }
        ensures certain { NoneComes head (length result.now) self.now }
    {
        let words = self.mechanics.ahead(head);
        let c = self.mechanics.cylinder;
        let place = self.mechanics.place;
        let count = self.plan.words_before(c, head, place, words.len());
        &words[..count]
    }

    fn idle(&mut self)
        ensures becomes { script_state self.new ≡ passed (with_gate false (script_state self.old)) }
        ensures no_fault { NoFault self.old self.new }
    {
        self.mechanics.idle();
    }

    fn let_pass(&mut self, count: u32)
        ensures passes { LetsPass count (script_state self.old) (script_state self.new) }
        ensures no_fault { NoFault self.old self.new }
    {
        self.mechanics.let_pass(count);
    }

    fn faults(&self) -> u64 {
        self.faults
    }
}

impl Inspect for ScriptDrive {
    ghost use Rattle.drive_model.specs.Drive.{with_protection, same_length, exchanged};
    ghost use Rattle.drive_model.specs.ScriptDrive.{script_state, NoFault};

    fn medium(&self) -> Option<&Medium> {
        self.mechanics.medium.as_ref()
    }

    fn cylinder(&self) -> u8 {
        self.mechanics.cylinder
    }

    fn place(&self) -> Option<u16> {
        self.mechanics.place_under()
    }

    fn is_gate_open(&self) -> bool {
        self.mechanics.gate
    }

    fn is_written(&self) -> bool {
        self.mechanics.replaced
    }

    fn forget_written(&mut self)
        ensures state { script_state self.new ≡ forgotten (script_state self.old) }
        ensures no_fault { NoFault self.old self.new }
    {
        self.mechanics.replaced = false;
    }

    fn set_protected(&mut self, on: bool)
        ensures state { script_state self.new ≡ with_protection on (script_state self.old) }
        ensures no_fault { NoFault self.old self.new }
    {
        self.mechanics.set_protected(on);
    }

    fn exchange(&mut self, medium: Medium) -> Result<Medium, Medium>
        ensures refused { IsErr result ↔ (same_length medium (script_state self.old).medium ≡ false) }
        ensures ok { OnOk result (script_state self.new ≡ exchanged medium (script_state self.old)) }
        ensures before { IfOk result (λ before. Some before ≡ (script_state self.old).medium) }
        ensures err { IfErr result (λ back. (back ≡ medium)
            × (script_state self.new ≡ script_state self.old)) }
        ensures no_fault { NoFault self.old self.new }
    {
        self.mechanics.exchange(medium)
    }
}
