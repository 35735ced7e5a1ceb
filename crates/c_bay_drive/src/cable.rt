// A cable that is pulled.
ghost use Rattle.std.specs.Prelude.{◌≤◌};
ghost use Rattle.flop_base.specs.Counts.{last_count};

mod saving;

pub use saving::load_cable;

/// What is seen through a pulled cable: no pulse reaches the heads, and the change line is down until a medium is put
/// in or taken out.
#[derive(Clone, Copy)]
pub struct Pulled {
    pub change: bool,
    /// The pulses that were lost.
    pub lost: u64,
    ghost counted: { lost ≤ last_count },
}
