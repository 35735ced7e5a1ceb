/// When a machine runs, waits and is disturbed, chosen from outside. Each list is used up from its front. Once it is
/// used up, each further gap or hold is 0, and no further spurious interrupt comes.
#[derive(Drop)]
pub struct Pace {
    /// The device steps that are run after a port access.
    pub gaps: Vec<u8>,
    /// The device steps that a DMA request waits for its grant.
    pub holds: Vec<u8>,
    /// The device steps from the last spurious interrupt, or from the start, to the next one. It sets the latch with no
    /// edge of the line. 0 counts as 1.
    pub strays: Vec<u16>,
}
