// The requests on user memory.
ghost use Rattle.std.specs.Prelude.{◌≡◌, ◌+◌, ◌≤◌, Option, IfOk, IfErr, IsOkUnless, nat_le};
ghost use Rattle.flop_base.specs.Shelf.{Files};
ghost use Rattle.flop_base.specs.Memory.{user_bytes, bytes_from};
ghost use Rattle.sector_model.specs.Steps.{Step, StopsAt, Fills};

use crate::session::{Session, bad_request};
use flop_base::{Bytes, NoMemory, USER_BYTES};
use floppy_jobs::Request;
use sector_model::{Reply, Station, Stop};

impl<D: Station> Session<D> {
    /// Sets bytes of memory.
    pub fn fill(&mut self, address: u32, length: u32, byte: u8) -> Reply
        ensures { (told : Option Files) → Step (Request.Fill address length byte) self.old told result self.new told }
    {
        if !is_range(address, length) {
            return bad_request();
        }
        self.fill_range(address, length, byte);
        Reply::Done
    }

    /// Sets the bytes of a range of user memory.
    fn fill_range(&mut self, address: u32, length: u32, byte: u8)
        requires { address + length ≤ user_bytes }
        ensures { Fills address length byte self.old self.new }
    {
        for i in 0..length {
            self.station.set_memory(address + i, byte);
        }
    }

    /// The bytes of memory from the address on.
    pub(crate) fn dump(&self, address: u32, length: u32) -> Result<Reply, Stop>
        ensures step { IfOk result (λ reply. (told : Option Files) → Step (Request.Dump address length) self.now
            told reply self.now told) }
        ensures stop { IfErr result (λ stop. (told : Option Files) → StopsAt (Request.Dump address length) self.now
            told stop self.now told) }
        ensures memory { IsOkUnless result Stop.NoMemory }
    {
        if !is_range(address, length) {
            return Ok(bad_request());
        }
        let content = self.bytes_from(address, length)?;
        Ok(Reply::Bytes { address, content })
    }

    /// The bytes of a range of user memory.
    fn bytes_from(&self, address: u32, length: u32) -> Result<Bytes, NoMemory>
        requires { address + length ≤ user_bytes }
        ensures { IfOk result (λ content. content ≡ bytes_from self.now.station.memory address length) }
    {
        let mut content = Vec::with_capacity(self.alloc, length as usize)?;
        for i in 0..length {
            content.push(self.station.memory(address + i))?;
        }
        Ok(Bytes::of(content))
    }
}

/// Whether this many bytes from the address on are all in user memory.
fn is_range(address: u32, length: u32) -> bool
    ensures { result ≡ nat_le (address + length) user_bytes }
{
    length <= USER_BYTES && address <= USER_BYTES - length
}
