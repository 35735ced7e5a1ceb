// READ TRACK: the sectors of a track, one after the other from the index pulse on. A READ ID hears the address field of
// each. A READ DATA then reads its data field, in the same turn.
ghost use Rattle.std.specs.Prelude.{◌≡◌, ◌≤◌, ◌==◌, ◌&&◌, not, bit_and};
ghost use Rattle.fdc_chip.specs.Chips.{chip_state};
ghost use Rattle.fdc_chip.specs.Doing.{is_size};
ghost use Rattle.fdc_chip.specs.Ending.{without_one, is_same_key, met_key, sector_met, track_faults, results_of_track, with_fault, track_told, track_at, is_over, unread, LooksOn, ReadsOn, EndsAt};

use crate::chip::Chip;
use crate::stage::{ChipStage, ChipTask, Place, Track};
use crate::starting::is_size;
use drive_model::Inspect;
use fdc_commands::{Command, Results};
use fdc_registers::{Flags, St0, St1};
use flop_base::Chrn;

/// The head and the drive in ST0.
const UNIT: u8 = 0x07;

/// All of ST1 but EN.
const WITHOUT_END: u8 = 0x7F;

/// Why no sector is read: why no address field was met, or else ND.
fn unread(results: Results) -> St1
    ensures { result.0 ≡ unread results }
{
    if results.st1.bits() == 0 {
        St1::NO_DATA
    } else {
        results.st1
    }
}

fn is_same_key(one: Chrn, other: Chrn) -> bool
    ensures { result ≡ is_same_key one other }
{
    one.c == other.c && one.h == other.h && one.r == other.r && one.n == other.n
}

impl Track {
    /// The READ TRACK after a sector is over.
    fn without_one(self, results: Results) -> Track
        ensures { result ≡ without_one results self }
    {
        Track {
            left: self.left.saturating_sub(1),
            st1: self.st1.union(St1(results.st1.bits() & WITHOUT_END)),
            st2: self.st2.union(results.st2),
            ..self
        }
    }

    /// The READ TRACK after an address field of this sector ID was met.
    fn met_key(self, key: Chrn) -> Track
        ensures { result ≡ met_key key self }
    {
        Track {
            place: Place::Data,
            met: self.met || is_same_key(key, self.key),
            ..self
        }
    }

    /// The sector of an address field. It has as many bytes as the command says, whatever the field says.
    fn sector_met(self, key: Chrn) -> Chrn
        ensures { result ≡ sector_met key self }
    {
        Chrn {
            n: self.key.n,
            ..key
        }
    }

    /// The READ TRACK with this fault as well.
    fn with_fault(self, fault: St1) -> Track
        ensures { result ≡ with_fault fault.0 self }
    {
        Track {
            st1: self.st1.union(fault),
            ..self
        }
    }

    /// What is wrong after this READ TRACK.
    fn faults(self) -> St1
        ensures { result.0 ≡ track_faults self }
    {
        let missed = if !self.met && self.st1.bits() & St1::MISSING_MARK.bits() == 0 {
            St1::NO_DATA
        } else {
            St1(0)
        };
        let uncounted = if self.left == 0 && !self.counted {
            St1::END_OF_CYLINDER
        } else {
            St1(0)
        };
        self.st1.union(missed).union(uncounted)
    }

    /// The results of the READ TRACK, if it ends here.
    fn results(self) -> Results
        ensures { result ≡ results_of_track self }
    {
        let st1 = self.faults();
        let code = if st1.bits() == 0 {
            St0(0)
        } else {
            St0::ABNORMAL
        };
        let sought = if self.seeks { St0::SEEK_END } else { St0(0) };
        Results {
            st0: St0(self.unit & UNIT).union(code).union(sought),
            st1,
            st2: self.st2,
            key: self.key,
        }
    }

    /// Whether no sector comes after one that ended with these results.
    fn is_over(self, results: Results) -> bool
        ensures { result ≡ is_over results self }
    {
        self.counted || self.left == 0 || results.st1.bits() & St1::OVERRUN.bits() != 0
    }
}

impl<D: Inspect> Chip<D> {
    /// Ends the READ TRACK here.
    fn tell_track(&mut self, track: Track)
        ensures { chip_state D.state self.new ≡ track_told track (chip_state D.state self.old) }
    {
        self.tell_results(track.results());
    }

    /// This READ TRACK is under way.
    fn go_on(&mut self, track: Track)
        ensures { chip_state D.state self.new ≡ track_at track (chip_state D.state self.old) }
    {
        self.stage = ChipStage::Busy {
            task: ChipTask::Track { track },
        };
    }

    /// Looks for the next address field.
    fn look_on(&mut self, track: Track)
        ensures { LooksOn track (chip_state D.state self.old) (chip_state D.state self.new) }
    {
        self.go_on(Track {
            place: Place::Address,
            ..track
        });
        self.command(Command::ReadId {
            head_drive: track.unit,
        });
    }

    /// Reads the data field of the address field that was met. The address field ended in this very device step.
    fn read_on(&mut self, track: Track, key: Chrn)
        requires least { 1 ≤ track.key.n }
        requires most { track.key.n ≤ 6 }
        ensures { ReadsOn track key (chip_state D.state self.old) (chip_state D.state self.new) }
    {
        self.go_on(track.met_key(key));
        self.behind.read_field(track.unit, track.sector_met(key));
    }

    /// Goes on after a part of the READ TRACK ended with these results.
    pub(crate) fn end_part(&mut self, track: Track, results: Results)
        ensures { EndsAt track.place track results (chip_state D.state self.old) (chip_state D.state self.new) }
    {
        match track.place {
            Place::Index => {
                if results.st1.bits() & St1::MISSING_MARK.bits() != 0 {
                    self.tell_track(track.with_fault(St1::MISSING_MARK));
                } else {
                    self.look_on(track);
                }
            }
            Place::Address => {
                if track.counted {
                    self.tell_track(track);
                } else if results.st1.bits() == 0 && is_size(track.key.n) {
                    self.read_on(track, results.key);
                } else {
                    self.tell_track(track.with_fault(unread(results)));
                }
            }
            Place::Data => {
                let over = track.without_one(results);
                if over.is_over(results) {
                    self.tell_track(over);
                } else {
                    self.look_on(over);
                }
            }
        }
    }
}
