// Written by tools/slots. Change src/controller.rt, of which this is a copy.
// A shelf for C.
mod held;
mod slot;

pub use slot::ShelfSlot;
