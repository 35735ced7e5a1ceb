// Memory as bytes.
use super::Memory;
use dma_8237::MEMORY_SIZE;
use flop_base::NoMemory;
use saved_state::{SavedBytes, SavedWhole, Source, load_bytes, save_bytes};
use std::alloc::Global;

impl SavedWhole for Memory {
    ghost use Rattle.pc_bus.specs.Saving.{spelled_memory, MemoryFits};

    ghost spelled = { spelled_memory };

    ghost Fits = { MemoryFits };

    fn save(&self, _alloc: Global, to: &mut SavedBytes) {
        save_bytes(&self.bytes, to);
    }

    fn load(alloc: Global, from: &mut Source<'_>) -> Result<Memory, NoMemory> {
        let bytes = load_bytes(from);
        if bytes.len() != MEMORY_SIZE {
            return Memory::new(alloc);
        }
        Ok(Memory {
            bytes: Vec::from_slice(alloc, bytes)?,
        })
    }
}
