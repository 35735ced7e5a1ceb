// The result of the requests of a workload.
ghost use Rattle.std.specs.Prelude.{◌≡◌, ◌≤◌};
ghost use Rattle.disk_commands.specs.Exercise.{one_done, one_refused, HasRoom, IsOneMore};

/// How many reads and writes were done, how many were refused, and the sum of all bytes that were read.
#[derive(Clone, Copy)]
pub(crate) struct WorkTally {
    pub done: u32,
    pub refused: u32,
    pub sum: u64,
}

impl WorkTally {
    /// The tally after one more request, which was refused.
    pub fn and_refused(self) -> WorkTally
        requires { HasRoom self }
        ensures value { result ≡ one_refused self }
        ensures more { IsOneMore self result }
    {
        WorkTally {
            refused: self.refused + 1,
            ..self
        }
    }

    /// The tally after one more request, which was done and read bytes of this sum.
    pub fn and_done(self, sum: u64) -> WorkTally
        requires room { HasRoom self }
        requires sum { sum ≤ 130560 }
        ensures value { result ≡ one_done sum self }
        ensures more { IsOneMore self result }
    {
        WorkTally {
            done: self.done + 1,
            sum: self.sum + sum,
            ..self
        }
    }
}
