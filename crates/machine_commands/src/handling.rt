// Calls past the driver: media, drives and user memory.
ghost use Rattle.std.specs.Prelude.{◌≡◌, ◌≤◌, ◌<◌};
ghost use Rattle.machine_commands.specs.Common.{user_bytes, IsEmpty, drive_in, counts_of};
ghost use Rattle.machine_commands.specs.Handled.{ExchangesDrive, PutsIn, PutsMemory, TakesOut};
ghost use Rattle.machine_commands.specs.Shown.{board_of, rig_shown, is_idle};

use crate::machine::CommandedMachine;
use drive_model::Drive;
use raw_image::Medium;

impl<D: Drive> CommandedMachine<D> {
    /// Puts a medium into a bay. Where one is in already, the new one is given back.
    pub fn insert(&mut self, bay: u8, medium: Medium) -> Result<(), Medium>
        requires { bay ≤ 1 }
        ensures step { PutsIn bay medium (rig_shown D.state self.old) result (rig_shown D.state self.new) }
        ensures idle { is_idle D.state self.old → is_idle D.state self.new }
    {
        self.keep_counts();
        let outcome = self.machine.insert(bay, medium);
        self.keep_ranges();
        outcome
    }

    /// Takes the medium out of a bay.
    pub fn eject(&mut self, bay: u8) -> Option<Medium>
        requires { bay ≤ 1 }
        ensures step { TakesOut bay (rig_shown D.state self.old) result (rig_shown D.state self.new) }
        ensures idle { is_idle D.state self.old → is_idle D.state self.new }
    {
        self.keep_counts();
        let medium = self.machine.eject(bay);
        self.keep_ranges();
        medium
    }

    /// Puts another drive into a bay, and hands the old one out, with the medium that is in it. The motor of the new
    /// drive runs as that of the old one did.
    pub fn exchange(&mut self, bay: u8, drive: D) -> D
        requires bay { bay ≤ 1 }
        requires empty { IsEmpty (D.state drive) }
        ensures handed_out { D.state result ≡ drive_in (board_of D.state self.old) bay }
        ensures step { ExchangesDrive bay (counts_of (D.state drive)) (rig_shown D.state self.old) (rig_shown D.state self.new) }
        ensures idle { is_idle D.state self.old → is_idle D.state self.new }
    {
        self.keep_counts();
        let old = self.machine.exchange(bay, drive);
        self.keep_ranges();
        old
    }

    /// Sets a byte of user memory.
    pub fn set_memory(&mut self, address: u32, byte: u8)
        requires { address < user_bytes }
        ensures step { PutsMemory address byte (rig_shown D.state self.old) (rig_shown D.state self.new) }
        ensures idle { is_idle D.state self.old → is_idle D.state self.new }
    {
        self.keep_counts();
        self.machine.ram_set(address, byte);
        self.keep_ranges();
    }
}
