// Written by tools/slots. Change src/controller.rt, of which this is a copy.
// A desk for C.
mod held;
mod slot;

pub use slot::DiskSlot;
