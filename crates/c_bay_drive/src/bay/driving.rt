// What every drive does. It does as the drive within, and the tracks that are written are kept.
ghost use Rattle.std.specs.Prelude.{◌≡◌, ◌↔◌, IsErr, IsSome, OnOk, OnErr, IfErr, false};
ghost use Rattle.drive_model.specs.Ahead.{LetsPass};
ghost use Rattle.drive_model.specs.Drive.{Becomes, InRange, Pulses, Reads, Writes, at_index, loaded, passed, rate_of, unloaded, with_gate, with_motor};
ghost use Rattle.c_bay_drive.specs.Bays.{with_change as changed_there};

use super::{BayDrive, either};
use crate::cable::Pulled;
use crate::map::TrackMap;
use drive_model::{Drive, Heard, Inspect, Turn};
use flop_base::Rate;
use raw_image::Medium;

/// Sets the change line up if the cable is pulled.
fn with_change(pulled: Option<Pulled>) -> Option<Pulled>
    ensures { result ≡ changed_there pulled }
{
    match pulled {
        None => None,
        Some(pulled) => Some(Pulled {
            change: true,
            lost: pulled.lost,
        }),
    }
}

impl BayDrive {
    ghost use Rattle.c_bay_drive.specs.Bays.{bay_state, drive_within, BecomesWithin};

    /// Closes the gate and lets a word time pass, in which nothing is heard.
    fn pass_unheard(&mut self) -> Heard
        ensures becomes { bay_state self.new ≡ passed (with_gate false (bay_state self.old)) }
        ensures word { result.turn.word ≡ 0 }
        ensures index { result.turn.index ≡ at_index (bay_state self.old) }
        ensures rate { result.rate ≡ rate_of (bay_state self.old).medium }
        ensures within { BecomesWithin (passed (with_gate false (drive_within self.old))) self.old self.new }
    {
        self.inside.gate(false);
        let rate = self.inside.rate();
        let index = self.inside.pass();
        Heard {
            turn: Turn { word: 0, index },
            rate,
        }
    }
}

impl Drive for BayDrive {
    ghost use Rattle.c_bay_drive.specs.Bays.{bay_state, drive_within, faults_in_bay, BecomesWithin, PulsesWithin, HearsWithin, WritesWithin};

    ghost state = { bay_state };

    fn insert(&mut self, medium: Medium) -> Result<(), Medium>
        ensures refused { IsErr result ↔ IsSome (bay_state self.old).medium }
        ensures ok { OnOk result (bay_state self.new ≡ loaded medium (bay_state self.old)) }
        ensures err { IfErr result (λ back. (back ≡ medium) × (bay_state self.new ≡ bay_state self.old)) }
        ensures within { OnOk result (BecomesWithin (loaded medium (drive_within self.old)) self.old self.new) }
        ensures stays { OnErr result (BecomesWithin (drive_within self.old) self.old self.new) }
    {
        self.inside.insert(medium)?;
        self.replaced = false;
        self.tracks = TrackMap::new();
        self.pulled = with_change(self.pulled);
        Ok(())
    }

    fn eject(&mut self) -> Option<Medium>
        ensures medium { result ≡ (bay_state self.old).medium }
        ensures becomes { bay_state self.new ≡ unloaded (bay_state self.old) }
        ensures within { BecomesWithin (unloaded (drive_within self.old)) self.old self.new }
    {
        let medium = self.inside.eject()?;
        self.pulled = with_change(self.pulled);
        Some(medium)
    }

    fn motor(&mut self, on: bool)
        ensures becomes { bay_state self.new ≡ with_motor on (bay_state self.old) }
        ensures within { BecomesWithin (with_motor on (drive_within self.old)) self.old self.new }
    {
        self.inside.motor(on);
    }

    fn pulse(&mut self, inward: bool)
        ensures moves { Pulses inward (bay_state self.old) (bay_state self.new) }
        ensures within { PulsesWithin inward self.old self.new }
    {
        match self.pulled {
            None => self.inside.pulse(inward),
            Some(pulled) => {
                self.pulled = Some(Pulled {
                    change: pulled.change,
                    lost: pulled.lost.saturating_add(1),
                });
            }
        }
    }

    fn track0(&self) -> bool {
        self.is_attached() && self.inside.track0()
    }

    fn changed(&self) -> bool {
        match self.pulled {
            None => self.inside.changed(),
            Some(pulled) => pulled.change,
        }
    }

    fn protected(&self) -> bool {
        self.inside.protected()
    }

    fn rate(&self) -> Rate {
        self.inside.rate()
    }

    fn gate(&mut self, on: bool)
        ensures becomes { bay_state self.new ≡ with_gate on (bay_state self.old) }
        ensures within { BecomesWithin (with_gate on (drive_within self.old)) self.old self.new }
    {
        self.inside.gate(on);
    }

    fn pass(&mut self) -> bool
        ensures becomes { bay_state self.new ≡ passed (bay_state self.old) }
        ensures index { result ≡ at_index (bay_state self.old) }
        ensures range_before { InRange (bay_state self.old) }
        ensures range { InRange (bay_state self.new) }
        ensures within { BecomesWithin (passed (drive_within self.old)) self.old self.new }
    {
        self.inside.pass()
    }

    fn read_word(&mut self, head: u8) -> Turn
        ensures becomes { Becomes (passed (bay_state self.old)) (bay_state self.old) (bay_state self.new) }
        ensures word { Reads head (bay_state self.old) result.word (bay_state self.new) }
        ensures index { result.index ≡ at_index (bay_state self.old) }
        ensures range_before { InRange (bay_state self.old) }
        ensures range { InRange (bay_state self.new) }
        ensures within { HearsWithin head result.word (passed (drive_within self.old)) self.old self.new }
    {
        match self.pulled {
            None => self.inside.read_word(head),
            Some(_) => {
                let index = self.inside.pass();
                Turn { word: 0, index }
            }
        }
    }

    fn listen(&mut self, head: u8) -> Heard
        ensures becomes { Becomes (passed (with_gate false (bay_state self.old))) (bay_state self.old) (bay_state self.new) }
        ensures word { Reads head (bay_state self.old) result.turn.word (bay_state self.new) }
        ensures index { result.turn.index ≡ at_index (bay_state self.old) }
        ensures rate { result.rate ≡ rate_of (bay_state self.old).medium }
        ensures within { HearsWithin head result.turn.word (passed (with_gate false (drive_within self.old))) self.old self.new }
    {
        match self.pulled {
            None => self.inside.listen(head),
            Some(_) => self.pass_unheard(),
        }
    }

    fn write_word(&mut self, head: u8, word: u16) -> bool
        ensures writes { Writes head word (bay_state self.old) (bay_state self.new) }
        ensures index { result ≡ at_index (bay_state self.old) }
        ensures range_before { InRange (bay_state self.old) }
        ensures range { InRange (bay_state self.new) }
        ensures within { WritesWithin head word self.old self.new }
    {
        match self.pulled {
            None => {
                let c = self.inside.cylinder();
                self.inside.forget_written();
                let index = self.inside.write_word(head, word);
                let wrote = self.inside.is_written();
                self.replaced = either(self.replaced, wrote);
                self.tracks.mark_if(wrote, c, head);
                index
            }
            Some(_) => self.inside.pass(),
        }
    }

    fn ahead(&self, head: u8) -> &[u16] {
        match self.pulled {
            None => self.inside.ahead(head),
            Some(_) => &[],
        }
    }

    fn idle(&mut self)
        ensures becomes { bay_state self.new ≡ passed (with_gate false (bay_state self.old)) }
        ensures within { BecomesWithin (passed (with_gate false (drive_within self.old))) self.old self.new }
    {
        self.inside.idle();
    }

    fn let_pass(&mut self, count: u32)
        ensures passes { LetsPass count (bay_state self.old) (bay_state self.new) }
        ensures within { LetsPass count (drive_within self.old) (drive_within self.new) }
        ensures script { faults_in_bay self.new ≡ faults_in_bay self.old }
    {
        self.inside.let_pass(count);
    }

    fn faults(&self) -> u64 {
        let count = self.inside.faults();
        match self.pulled {
            None => count,
            Some(pulled) => pulled.lost,
        }
    }
}
