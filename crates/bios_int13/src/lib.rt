//! INT 13h, the diskette service of the PC/AT BIOS, over a session: the table of its functions, and the calls.
//!
//! The front says what a call asks for, and what the registers are after the call. It touches no drive: `serve` has a
//! session do the work between `plan` and `finish`.
#![tactic(auto)]

mod front;
mod regs;
mod service;
mod work;

pub use front::Int13;
pub use regs::Regs;
pub use service::serve;
pub use work::{Kind, Work};
