// Why the program ends early.
use std::error::Error;

/// Why the program ends before its last line.
#[derive(Clone, Copy, Debug)]
pub(crate) enum Trouble {
    /// A call failed. The call's own error says more, if a caller needs it.
    Failed,
    /// Something came out differently than it should.
    Differs,
}

impl<E: Error> From<E> for Trouble {
    fn from(_: E) -> Self {
        Trouble::Failed
    }
}

/// Goes on if this is so, and otherwise fails with `Differs`.
pub(crate) fn must(is_so: bool) -> Result<(), Trouble> {
    if is_so { Ok(()) } else { Err(Trouble::Differs) }
}
