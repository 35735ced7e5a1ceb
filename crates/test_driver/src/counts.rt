// What the bench counts besides the faults of its drives.
ghost use Rattle.test_driver.specs.Counted.{HasSent, HasStalled};

/// Data commands, interrupts taken, and late DMAs. Each count stays at its last value.
#[derive(Clone, Copy)]
pub(crate) struct BenchCounts {
    pub commands: u64,
    pub taken: u64,
    pub stalls: u64,
}

impl BenchCounts {
    /// A data command began, and its interrupt was taken.
    pub fn send(&mut self)
        ensures { HasSent self.old self.new }
    {
        let BenchCounts {
            commands,
            taken,
            stalls,
        } = *self;
        *self = BenchCounts {
            commands: commands.saturating_add(1),
            taken: taken.saturating_add(1),
            stalls,
        };
    }

    /// A DMA request waited too long: counts a late DMA.
    pub fn stall(&mut self)
        ensures { HasStalled self.old self.new }
    {
        let stalls = self.stalls;
        self.stalls = stalls.saturating_add(1);
    }
}
