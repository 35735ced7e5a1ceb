// Single sectors. While their bytes are transferred, they lie at the desk's place in user memory.
use crate::SectorDesk;
use flop_base::standard::FILL;
use flop_base::{Chrn, Code};
use sector_model::Station;

/// Where the bytes of a sector lie in user memory. No sector that begins there crosses a page.
const PLACE: u32 = 0x10000;

impl SectorDesk {
    ghost use Rattle.std.specs.Prelude.{◌≡◌, ◌≤◌, length};
    ghost use Rattle.flop_base.specs.Standard.{gap_at, standard_fill};
    ghost use Rattle.flop_base.specs.Memory.{bytes_from};
    ghost use Rattle.track_model.specs.Fields.{IsSizeCode, content_size};
    ghost use Rattle.sector_model.specs.Stations.{bay_of};
    ghost use Rattle.sector_model.specs.Formats.{FormatsTo};
    ghost use Rattle.sector_desk.specs.Desks.{sector_place, station_of};
    ghost use Rattle.sector_desk.specs.Quiet.{IsCalm};
    ghost use Rattle.sector_desk.specs.Sectors.{Places, ReadsSector, WritesSector};

    /// Reads the sector of a key to a buffer of its size. The answer is true if the sector is marked deleted. If the
    /// read is refused, the buffer stays as it was. Refusals: `BadRequest` for a place that no drive has or a record 0,
    /// `Changed` if the bay isn't acknowledged, and then the drive's.
    pub fn read(&mut self, bay: u8, key: Chrn, content: &mut [u8]) -> Result<bool, Code>
        requires bay { bay ≤ 1 }
        requires coded { IsSizeCode key.n }
        requires size { length content.old ≡ content_size key.n }
        requires most { length content.old ≤ 8192 }
        ensures { ReadsSector bay key (station_of self.old) result content.old content.new (station_of self.new) }
    {
        // The contract of this call says how large memory is.
        let _byte = self.station.memory(PLACE);
        let answer = self.station.read(bay, key, PLACE);
        if answer.is_err() {
            return answer;
        }
        self.fetch(content);
        answer
    }

    /// Writes these bytes to the sector of a key, marked deleted or not, and reads them back. Refusals: those of
    /// `read`, with `Protected` before the drive's.
    pub fn write(&mut self, bay: u8, key: Chrn, content: &[u8], deleted: bool) -> Result<(), Code>
        requires bay { bay ≤ 1 }
        requires coded { IsSizeCode key.n }
        requires size { length content.now ≡ content_size key.n }
        requires most { length content.now ≤ 8192 }
        ensures { WritesSector bay key content.now deleted (station_of self.old) result (station_of self.new) }
    {
        self.put(content);
        self.station.write(bay, key, PLACE, deleted)
    }

    /// Formats the track of a cylinder and head in the standard layout of the bay's rate, with records of 512 bytes F6.
    pub fn format(&mut self, bay: u8, c: u8, h: u8) -> Result<(), Code>
        requires { bay ≤ 1 }
        ensures step { FormatsTo bay c h (gap_at (bay_of (station_of self.old) bay).rate) standard_fill (station_of self.old)
            result (station_of self.new) }
        ensures calm { IsCalm bay (station_of self.old) (station_of self.new) }
    {
        let gap3 = self.station.rate(bay).format_gap();
        self.station.format(bay, c, h, gap3, FILL)
    }

    /// Copies the bytes at the desk's place.
    fn fetch(&self, content: &mut [u8])
        requires { length content.old ≤ 8192 }
        ensures { content.new ≡ bytes_from (station_of self.now).memory sector_place (length content.old) }
    {
        for i in 0..content.len() {
            content[i] = self.station.memory(PLACE + i as u32);
        }
    }

    /// Puts these bytes to the desk's place.
    fn put(&mut self, content: &[u8])
        requires { length content.now ≤ 8192 }
        ensures places { Places content.now (station_of self.old) (station_of self.new) }
        ensures there { bytes_from (station_of self.new).memory sector_place (length content.now) ≡ content.now }
    {
        // The contract of this call says how large memory is.
        let _byte = self.station.memory(PLACE);
        for i in 0..content.len() {
            self.station.set_memory(PLACE + i as u32, content[i]);
        }
    }
}
