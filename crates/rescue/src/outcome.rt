// How a rescue ended.
ghost use Rattle.std.specs.Prelude.{◌≡◌, Some};
ghost use Rattle.rescue.specs.Course.{outcome_text, outcome_status};

use flop_base::Status;
use std::fmt;

/// How many records were asked for, and how many of them were read and written.
#[derive(Clone, Copy, Debug, PartialEq, Eq)]
pub struct Outcome {
    /// The records that were read and written.
    pub written: usize,
    /// The records that were asked for, including those that were written.
    pub asked: usize,
}

impl Outcome {
    /// The status of the program, by whether some record wasn't read.
    pub fn status(self) -> Status
        ensures { result ≡ outcome_status self }
    {
        if self.written < self.asked {
            Status::SomeRefused
        } else {
            Status::AllOk
        }
    }
}

/// Shows the last line of the report, without its line feed.
impl fmt::Display for Outcome {
    ghost output = { λ outcome. Some (outcome_text outcome) };

    fn fmt<W: fmt::Write>(&self, f: &mut fmt::Formatter<W>) -> fmt::Result {
        write!(f, "rescue {} of {}", self.written, self.asked)
    }
}
