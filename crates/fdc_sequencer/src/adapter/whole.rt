// Whole commands, their endings and seeks, for a layer in front of the adapter that collects the bytes of commands
// itself.
ghost use Rattle.std.specs.Prelude.{◌≡◌, ◌≤◌};
ghost use Rattle.fdc_sequencer.specs.Common.{status_of_lines, ReadsField, is_executing, is_gated, is_idle, TakesWhole, ending_told, results_waiting, given_up, mark_of, recalibrated_within, without_seek, has_ended_seek};

use crate::adapter::DisketteAdapter;
use drive_model::Inspect;
use fdc_commands::{Accepted, Results};
use fdc_core::Fdc;
use fdc_core::drives::lines;
use fdc_stages::Ending;
use flop_base::Chrn;

impl<D: Inspect> DisketteAdapter<D> {
    ghost use Rattle.fdc_sequencer.specs.Adapters.{adapter_state, controller_of, lines_at, SameDrives};

    /// Whether the data port takes a byte, and no byte of a command has come yet.
    pub fn is_idle(&self) -> bool
        ensures { result ≡ is_idle (controller_of self.now) }
    {
        self.controller.is_idle()
    }

    /// Whether a data command is in execution.
    pub fn is_executing(&self) -> bool
        ensures { result ≡ is_executing (controller_of self.now).phase }
    {
        self.controller.is_executing()
    }

    /// Whether DOR lets INT and DRQ out.
    pub fn is_gated(&self) -> bool
        ensures { result ≡ is_gated (controller_of self.now) }
    {
        self.controller.is_gated()
    }

    /// Takes what the bytes of a command came to elsewhere, instead of bytes that come to the data port.
    pub fn take_accepted(&mut self, accepted: Accepted)
        ensures takes { TakesWhole accepted (lines_at (adapter_state D.state self.old)) (controller_of self.old) (controller_of self.new) }
        ensures drives { SameDrives self.old self.new }
    {
        let lines = lines(&self.controller, &self.first, &self.second);
        self.controller.take_accepted(accepted, lines);
    }

    /// Begins a READ DATA of this sector where its address field has just passed.
    pub fn read_field(&mut self, head_drive: u8, key: Chrn, last_sector: u8)
        requires least { 1 ≤ key.n }
        requires most { key.n ≤ 6 }
        ensures reads { ReadsField (record { head_drive = head_drive; key = key; last_sector = last_sector }) (controller_of self.old) (controller_of self.new) }
        ensures drives { SameDrives self.old self.new }
    {
        self.controller.read_field(head_drive, key, last_sector);
    }

    /// How a data command ended, while the host reads its results. The results are given up, INT falls, and the
    /// controller takes commands.
    pub fn take_ending(&mut self) -> Option<Ending>
        ensures ending { result ≡ ending_told (controller_of self.old) }
        ensures after { controller_of self.new ≡ given_up (controller_of self.old) }
        ensures drives { SameDrives self.old self.new }
    {
        self.controller.take_ending()
    }

    /// The results of a data command that has ended. They are given up, INT falls, and the controller takes commands.
    pub fn take_results(&mut self) -> Option<Results>
        ensures results { result ≡ results_waiting (controller_of self.old) }
        ensures after { controller_of self.new ≡ given_up (controller_of self.old) }
        ensures drives { SameDrives self.old self.new }
    {
        self.controller.take_results()
    }

    /// ST3 of the selected drive, with the head and the drive as they were sent.
    pub fn drive_status(&self, head_drive: u8) -> u8
        ensures { result ≡ status_of_lines (lines_at (adapter_state D.state self.now)) head_drive }
    {
        let lines = lines(&self.controller, &self.first, &self.second);
        Fdc::drive_status(lines, head_drive)
    }

    /// The data mark of the field that a READ DATA reads, once the mark is met: true for F8.
    pub fn mark(&self) -> Option<bool>
        ensures { result ≡ mark_of (controller_of self.now) }
    {
        self.controller.mark()
    }

    /// Drops a seek that has ended, together with its interrupt, and says whether there was one.
    pub fn forget_seek(&mut self) -> bool
        ensures told { result ≡ has_ended_seek (controller_of self.old).seeks }
        ensures after { controller_of self.new ≡ without_seek (controller_of self.old) }
        ensures drives { SameDrives self.old self.new }
    {
        self.controller.forget_seek()
    }

    /// Begins a RECALIBRATE that gives at most this many pulses, if the first byte of a command may come and no seek
    /// bit is set.
    pub fn recalibrate_within(&mut self, drive: u8, pulses: u8)
        ensures after { controller_of self.new ≡ recalibrated_within drive pulses (controller_of self.old) }
        ensures drives { SameDrives self.old self.new }
    {
        self.controller.recalibrate_within(drive, pulses);
    }
}
