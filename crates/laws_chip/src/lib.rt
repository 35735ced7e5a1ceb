//! What follows from the contracts of the whole controller and of the sequencer in it. The modules `several*` are about
//! commands of several sectors, call by call and from their beginning to their results: the bytes that pass are, in
//! order, those of their sectors, and each command ends. The others are about the whole chip. A command that is sent is
//! one that the sequencer serves, what the sequencer reports the chip reports, the chip's parts agree at each time, and
//! each command ends.
#![tactic(auto)]

pub mod edges;
pub mod endings;
pub mod formatting;
pub mod identifying;
pub mod lasting;
pub mod media;
pub mod paces;
pub mod resets;
pub mod seeks;
pub mod several;
pub mod several_ends;
pub mod several_written;
pub mod soundness;
pub mod timing;
pub mod transfers;
pub mod waiting;
