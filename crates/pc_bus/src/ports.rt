// Port accesses.
ghost use Rattle.pc_bus.specs.Boards.{board};
ghost use Rattle.pc_bus.specs.Ports.{Inputs, Outputs, RunsGap, WritesPort};

use crate::machine::MachineOf;
use drive_model::Drive;
use fdc_core::drives::{follow_write, lines};

impl<D: Drive> MachineOf<D> {
    /// Reads a port, and then lets the device steps of the next gap pass. The value is FF if nothing answers.
    pub fn inb(&mut self, port: u16) -> u8
        ensures { Inputs port (board D.state self.old) result (board D.state self.new) }
    {
        let lines = lines(&self.bus.chips.controller, &self.first, &self.second);
        let value = self.bus.read_port(port, lines);
        self.run_gap();
        value
    }

    /// Writes a port, and then lets the device steps of the next gap pass. The write is ignored if nothing answers. A
    /// write to DOR turns motors on or off at once. A write that resets the controller closes the write gates.
    pub fn outb(&mut self, port: u16, value: u8)
        ensures { Outputs port value (board D.state self.old) (board D.state self.new) }
    {
        self.write_port(port, value);
        self.run_gap();
    }

    /// Writes a port. The drives follow it.
    fn write_port(&mut self, port: u16, value: u8)
        ensures { WritesPort port value (board D.state self.old) (board D.state self.new) }
    {
        let lines = lines(&self.bus.chips.controller, &self.first, &self.second);
        self.bus.write_port(port, value, lines);
        follow_write(
            &self.bus.chips.controller,
            port,
            value,
            &mut self.first,
            &mut self.second,
        );
    }

    /// Runs the device steps after an access.
    fn run_gap(&mut self)
        ensures { RunsGap (board D.state self.old) (board D.state self.new) }
    {
        let gap = self.bus.next_gap();
        self.run(u32::from(gap));
    }
}
