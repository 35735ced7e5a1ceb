// The station that a session works on.
ghost use Rattle.std.specs.Prelude.{◌≡◌, ◌≤◌, ◌<◌, ◌↔◌, ◌⊎◌, length, slice_index, is_some, IsTrue};
ghost use Rattle.sector_model.specs.Common.{GoesOn, faults_of, user_bytes};
ghost use Rattle.sector_model.specs.Stations.{StationState, bay_of};
ghost use Rattle.sector_model.specs.Reads.{Reads};
ghost use Rattle.sector_model.specs.Writes.{WritesTo};
ghost use Rattle.sector_model.specs.Formats.{FormatsTo};
ghost use Rattle.sector_model.specs.Calls.{Acks, RatesTo, SetsTries, TellsChange, Inserts, Ejects, TakesUnit, SetsMemory};

use flop_base::{Chrn, Code, Rate};
use raw_image::Medium;

/// A station with two diskette bays, 0 and 1, and 983,040 bytes of user memory, as a session sees it: a PC/AT with its
/// driver, or media in memory that behave as such.
///
/// Each call is a step of the sector model. Only `new` of a station allocates memory. `is_ready` is what has to hold of
/// a station between calls. Whoever makes the station makes it hold, and each call keeps it.
pub trait Station: Drop {
    /// The state that the steps speak of.
    ghost shown: { Self → StationState };

    /// The station is in a state in which it can be called.
    ghost is_ready: { Self → Type 0 };

    /// Puts a medium in. If one is in already, the new one is given back.
    fn insert(&mut self, bay: u8, medium: Medium) -> Result<(), Medium>
        requires ready { is_ready self.old }
        requires bay { bay ≤ 1 }
        ensures step { Inserts bay medium (shown self.old) result (shown self.new) }
        ensures counts { GoesOn (shown self.old).counters (shown self.new).counters }
        ensures ready { is_ready self.new };

    /// Takes the medium out.
    fn eject(&mut self, bay: u8) -> Option<Medium>
        requires ready { is_ready self.old }
        requires bay { bay ≤ 1 }
        ensures step { Ejects bay (shown self.old) result (shown self.new) }
        ensures counts { GoesOn (shown self.old).counters (shown self.new).counters }
        ensures ready { is_ready self.new };

    /// Takes the next spare drive into the bay and drops the old one. The answer is false if no spare is left.
    fn take_unit(&mut self, bay: u8) -> bool
        requires ready { is_ready self.old }
        requires bay { bay ≤ 1 }
        ensures step { TakesUnit bay (shown self.old) result (shown self.new) }
        ensures ready { is_ready self.new };

    /// Whether a medium is in.
    fn is_loaded(&self, bay: u8) -> bool
        requires ready { is_ready self.now }
        requires bay { bay ≤ 1 }
        ensures { result ≡ is_some (bay_of (shown self.now) bay).medium };

    /// The rate of the bay, which is R500 if the bay isn't acknowledged.
    fn rate(&self, bay: u8) -> Rate
        requires ready { is_ready self.now }
        requires bay { bay ≤ 1 }
        ensures { result ≡ (bay_of (shown self.now) bay).rate };

    /// A byte of user memory.
    fn memory(&self, address: u32) -> u8
        requires address { address < user_bytes }
        ensures byte { result ≡ slice_index (shown self.now).memory address }
        ensures size { length (shown self.now).memory ≡ user_bytes };

    /// Sets a byte of user memory.
    fn set_memory(&mut self, address: u32, byte: u8)
        requires ready { is_ready self.old }
        requires address { address < user_bytes }
        ensures step { SetsMemory address byte (shown self.old) (shown self.new) }
        ensures size { length (shown self.old).memory ≡ user_bytes }
        ensures counts { GoesOn (shown self.old).counters (shown self.new).counters }
        ensures ready { is_ready self.new };

    /// Acknowledges a change of the medium, and finds the medium's rate. Refusals: `BadRequest` if the bay is above 1;
    /// `NotReady` if no medium is in, or the drive lost pulse after pulse. After `NotReady` the bay isn't acknowledged.
    fn ack(&mut self, bay: u8) -> Result<(), Code>
        requires ready { is_ready self.old }
        ensures step { Acks bay (shown self.old) result (shown self.new) }
        ensures counts { GoesOn (shown self.old).counters (shown self.new).counters }
        ensures ready { is_ready self.new };

    /// Whether the bay isn't acknowledged. It loses its acknowledgement when a medium is put in or taken out, or the
    /// drive is exchanged.
    fn changed(&mut self, bay: u8) -> bool
        requires ready { is_ready self.old }
        requires bay { bay ≤ 1 }
        ensures step { TellsChange bay (shown self.old) result (shown self.new) }
        ensures counts { GoesOn (shown self.old).counters (shown self.new).counters }
        ensures ready { is_ready self.new };

    /// Reads the sector of this key to memory from the address on. The answer is true if the sector is marked deleted.
    /// Refusals, in this order: `BadRequest` if `is_sector_request` is false, `Page` if `crosses_page` is true,
    /// `Changed` if the bay isn't acknowledged, and then the drive's.
    fn read(&mut self, bay: u8, key: Chrn, address: u32) -> Result<bool, Code>
        requires ready { is_ready self.old }
        ensures step { Reads bay key address (shown self.old) result (shown self.new) }
        ensures counts { GoesOn (shown self.old).counters (shown self.new).counters }
        ensures ready { is_ready self.new };

    /// Writes memory from the address on to the sector of this key, marked deleted or not. Refusals: those of `read`,
    /// with `Protected` before the drive's.
    fn write(&mut self, bay: u8, key: Chrn, address: u32, deleted: bool) -> Result<(), Code>
        requires ready { is_ready self.old }
        ensures step { WritesTo bay key address deleted (shown self.old) result (shown self.new) }
        ensures counts { GoesOn (shown self.old).counters (shown self.new).counters }
        ensures ready { is_ready self.new };

    /// Formats the track of a cylinder and head with records of 512 bytes `fill`: 18 at 500 kbit/s, 9 at 250 kbit/s.
    /// Refusals, in this order: `BadRequest` for no bay, no place, or a gap 3 that isn't from 16 to `most_format_gap`;
    /// `Changed`, `Protected`, and then the drive's.
    fn format(&mut self, bay: u8, c: u8, h: u8, gap3: u8, fill: u8) -> Result<(), Code>
        requires ready { is_ready self.old }
        ensures step { FormatsTo bay c h gap3 fill (shown self.old) result (shown self.new) }
        ensures counts { GoesOn (shown self.old).counters (shown self.new).counters }
        ensures ready { is_ready self.new };

    /// Sets the rate of an acknowledged bay. Refusals: `BadRequest` if the bay is above 1, `Changed` if it isn't
    /// acknowledged.
    fn set_rate(&mut self, bay: u8, rate: Rate) -> Result<(), Code>
        requires ready { is_ready self.old }
        ensures step { RatesTo bay rate (shown self.old) result (shown self.new) }
        ensures counts { GoesOn (shown self.old).counters (shown self.new).counters }
        ensures ready { is_ready self.new };

    /// Sets the number of attempts of later calls. The number is 3 at first.
    fn set_tries(&mut self, tries: u8)
        requires ready { is_ready self.old }
        requires least { 1 ≤ tries }
        requires most { tries ≤ 10 }
        ensures step { SetsTries tries (shown self.old) (shown self.new) }
        ensures counts { GoesOn (shown self.old).counters (shown self.new).counters }
        ensures ready { is_ready self.new };

    /// The count of faults of the drive in the bay. Each of these counts stays at its last value.
    fn faults(&self, bay: u8) -> u64
        requires bay { bay ≤ 1 }
        ensures { result ≡ faults_of (shown self.now).counters bay };

    /// The DMA requests that were held back for more than 8 device steps.
    fn stalls(&self) -> u64
        ensures { result ≡ (shown self.now).counters.stalls };

    /// The data commands that began.
    fn data_commands(&self) -> u64
        ensures { result ≡ (shown self.now).counters.data_commands };

    /// The interrupts that were taken.
    fn taken(&self) -> u64
        ensures { result ≡ (shown self.now).counters.taken };

    /// The accesses to user memory, media and drives past the driver.
    fn direct(&self) -> u64
        ensures { result ≡ (shown self.now).counters.direct };
}
