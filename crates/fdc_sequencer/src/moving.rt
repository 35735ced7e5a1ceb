// Device steps: how a sector ends and the next begins.
ghost use Rattle.std.specs.Prelude.{◌≡◌, true};
ghost use Rattle.fdc_sequencer.specs.Adapters.{controller_of};
ghost use Rattle.fdc_sequencer.specs.Common.{ending_told, has_ended_seek, is_executing};
ghost use Rattle.fdc_sequencer.specs.Fronts.{front_state, adapter_of, told_if, begun_if, BeginsSector, moving_of};
ghost use Rattle.fdc_sequencer.specs.Moves.{StepsFront, FollowsStep, MovesOn, EndsSector, SeeksOn, passed_over_if, would_go_on, goes_on, is_unwanted, judged, judged_if, results_behind, results_failed, has_met_other, has_failed_other, is_bad_other};

use crate::sequencer::Sequencer;
use crate::stage::{FrontStage, Moving};
use crate::transfer::Transfer;
use drive_model::Inspect;
use fdc_commands::{Accepted, Results};
use fdc_stages::Ending;

impl<D: Inspect> Sequencer<D> {
    /// Does one device step of the adapter. If a sector ended in it, the next one begins, or there are results.
    pub fn step(&mut self)
        ensures { StepsFront (front_state D.state self.old) (front_state D.state self.new) }
    {
        // The mark is known until the step in which the command ends, and no longer after it.
        let mark = self.adapter.mark();
        self.adapter.step();
        self.follow_step(mark);
    }

    /// Does what has to be done after the adapter's step, before which this mark of a field was known.
    fn follow_step(&mut self, mark: Option<bool>)
        ensures { FollowsStep mark self.old.stage (front_state D.state self.old) (front_state D.state self.new) }
    {
        match self.stage {
            FrontStage::Seeking { transfer, counted } => self.follow_seek(transfer, counted),
            FrontStage::Moving { moving } => self.follow_sector(mark, moving),
            _ => {}
        }
    }

    /// Begins the sector after an implied seek, if the seek has ended.
    fn follow_seek(&mut self, transfer: Transfer, counted: bool)
        ensures { SeeksOn (has_ended_seek (controller_of (adapter_of self.old)).seeks) transfer counted (front_state D.state self.old) (front_state D.state self.new) }
    {
        if self.adapter.forget_seek() {
            self.begin_sector(transfer, counted, false);
        }
    }

    /// Begins the next sector or gives the results, if this sector ended. If it didn't, a field whose mark isn't wanted
    /// may have been met, which is then passed over. This mark of the field was known before the step.
    fn follow_sector(&mut self, mark: Option<bool>, moving: Moving)
        ensures { MovesOn mark (judged_if moving (ending_told (controller_of (adapter_of self.old)))) moving (front_state D.state self.old) (front_state D.state self.new) }
    {
        match self.adapter.take_ending() {
            Some(ending) => self.end_sector(mark, moving, moving.judged(ending)),
            None => {
                if moving.is_unwanted(self.adapter.mark()) {
                    self.pass_over(moving);
                }
            }
        }
    }

    /// Passes the field over: no byte of it passes, and its CRC doesn't count.
    fn pass_over(&mut self, moving: Moving)
        ensures { front_state D.state self.new ≡ passed_over_if true moving (front_state D.state self.old) }
    {
        self.adapter.tc();
        self.stage = FrontStage::Moving {
            moving: Moving {
                left: 0,
                passed_over: true,
                skipped: true,
                ..moving
            },
        };
    }

    /// The controller's own command for the sector has this ending, as it is judged. This mark of the field was known
    /// before that.
    fn end_sector(&mut self, mark: Option<bool>, moving: Moving, ending: Ending)
        ensures { EndsSector mark moving ending (front_state D.state self.old) (front_state D.state self.new) }
    {
        match ending {
            Ending::Done { deleted } if moving.goes_on(deleted) => {
                self.begin_sector(moving.transfer.next(), false, moving.has_met_other(deleted));
            }
            Ending::Done { deleted } => self.tell(moving.results_behind(deleted)),
            _ => self.tell(moving.results_failed(mark, ending)),
        }
    }

    /// The command has ended with these results.
    fn tell(&mut self, results: Results)
        ensures { self.new ≡ record self.old { stage = FrontStage.Telling results } }
    {
        self.stage = FrontStage::Telling { results };
    }

    /// The controller's own command for a sector begins.
    pub(crate) fn begin_sector(&mut self, transfer: Transfer, counted: bool, passed_over: bool)
        ensures { BeginsSector transfer counted passed_over (front_state D.state self.old) (front_state D.state self.new) }
    {
        self.adapter
            .take_accepted(Accepted::Ready(transfer.command()));
        self.follow_begun(transfer, counted, passed_over);
    }

    /// The controller executes its own command for a sector, or has answered the host without executing it.
    fn follow_begun(&mut self, transfer: Transfer, counted: bool, passed_over: bool)
        ensures { front_state D.state self.new ≡ begun_if (is_executing (controller_of (adapter_of self.old)).phase)
            transfer counted passed_over (front_state D.state self.old).adapter (front_state D.state self.old) }
    {
        if !self.adapter.is_executing() {
            self.stage = FrontStage::Through;
            return;
        }
        self.tell_if(counted);
        self.stage = FrontStage::Moving {
            moving: Moving::of(transfer, counted, passed_over),
        };
    }

    /// Gives the controller the terminal count, if it came.
    fn tell_if(&mut self, counted: bool)
        ensures { front_state D.state self.new ≡ record (front_state D.state self.old) {
          adapter = told_if counted (front_state D.state self.old).adapter;
        } }
    {
        if counted {
            self.adapter.tc();
        }
    }
}

impl Moving {
    /// A sector of which no byte has passed.
    pub(crate) fn of(transfer: Transfer, counted: bool, passed_over: bool) -> Moving
        ensures { result ≡ moving_of transfer counted passed_over }
    {
        Moving {
            transfer,
            left: transfer.size(),
            counted,
            passed_over,
            skipped: false,
        }
    }

    /// Whether a mark that isn't wanted is met before a byte passed. If so, the field is to be passed over.
    pub(crate) fn is_unwanted(self, mark: Option<bool>) -> bool
        ensures { result ≡ is_unwanted self mark }
    {
        match mark {
            None => false,
            Some(deleted) => {
                self.transfer.is_skipping()
                    && self.transfer.is_other(deleted)
                    && self.left == self.transfer.size()
            }
        }
    }

    /// The ending of the controller's own command, as it is judged. A field that is passed over is done, whatever its
    /// CRC is.
    fn judged(self, ending: Ending) -> Ending
        ensures { result ≡ judged self ending }
    {
        match ending {
            Ending::BadCheck if self.skipped => Ending::Done {
                deleted: self.transfer.other_mark(),
            },
            _ => ending,
        }
    }

    /// Whether a field with the mark that isn't wanted was met, at this sector or before.
    fn has_met_other(self, deleted: bool) -> bool
        ensures { result ≡ has_met_other self deleted }
    {
        self.passed_over || self.transfer.is_other(deleted)
    }

    /// Whether the command would go on after this sector, if it were not the last.
    fn would_go_on(self, deleted: bool) -> bool
        ensures { result ≡ would_go_on self deleted }
    {
        !self.counted && (!self.transfer.is_other(deleted) || self.transfer.is_skipping())
    }

    /// Whether another sector comes after this one.
    fn goes_on(self, deleted: bool) -> bool
        ensures { result ≡ goes_on self deleted }
    {
        self.would_go_on(deleted) && !self.transfer.is_last()
    }

    /// The results after a sector that was moved, if no other sector comes after it.
    fn results_behind(self, deleted: bool) -> Results
        ensures { result ≡ results_behind self deleted }
    {
        let transfer = self.transfer;
        let met_other = self.has_met_other(deleted);
        if self.would_go_on(deleted) {
            return transfer.results(Ending::NoCount, transfer.key, met_other);
        }
        transfer.results(
            Ending::Done { deleted: false },
            transfer.next().key,
            met_other,
        )
    }

    /// Whether a field with the mark that isn't wanted was met before a failure, or is this field, whose CRC is wrong.
    fn has_failed_other(self, mark: Option<bool>, ending: Ending) -> bool
        ensures { result ≡ has_failed_other mark self ending }
    {
        self.passed_over || self.is_bad_other(mark, ending)
    }

    /// Whether the CRC of this field is wrong, and its mark isn't wanted (data sheet: CM is set too where DD is).
    fn is_bad_other(self, mark: Option<bool>, ending: Ending) -> bool
        ensures { result ≡ is_bad_other self.transfer.opcode.operation ending mark }
    {
        match ending {
            Ending::BadCheck => match mark {
                Some(deleted) => self.transfer.is_other(deleted),
                None => false,
            },
            _ => false,
        }
    }

    /// The results of a failure at this sector, whose field has this mark, if a mark was met.
    fn results_failed(self, mark: Option<bool>, ending: Ending) -> Results
        ensures { result ≡ results_failed mark self ending }
    {
        let met_other = self.has_failed_other(mark, ending);
        self.transfer.results(ending, self.transfer.key, met_other)
    }
}
