// DMA requests, the DMA latency of each (hold), and the late ones (stalls).
ghost use Rattle.std.specs.Prelude.{◌≡◌, ◌≤◌};
ghost use Rattle.std.specs.List.{All};
ghost use Rattle.irq_events.specs.Entries.{next_entry, rest_of};
ghost use Rattle.irq_events.specs.Holds.{AreShort, IsShort, looked, shown, is_due, is_low, waited, stalls_with};
ghost use Rattle.irq_events.specs.declared.holding.DmaRequest.TheVariants.{Low};

mod saving;

use std::collections::VecDeque;
use std::marker::Model;

/// A hold above this is a stall.
const LONGEST: u8 = 8;

/// A device's request for DMA.
#[derive(Clone, Copy)]
pub enum DmaRequest {
    /// The line is low: nothing is asked for.
    Low,
    /// The request is granted after so many device steps more.
    High { left: u8 },
}

/// The request line as device steps see it, and the holds that are left.
#[derive(Drop)]
pub struct Holding {
    entries: VecDeque<u8>,
    request: DmaRequest,
    stalls: u64,
}

impl Model for Holding {
    ghost use Rattle.irq_events.specs.Holds.{Holds};

    ghost Value = { Holds };

    ghost view = { λ holding. record {
      entries = holding.entries.items;
      request = holding.request;
      stalls = holding.stalls;
    } };
}

impl Holding {
    /// The line is low. Each further request takes the next of these holds.
    pub fn new(holds: Vec<u8>) -> Holding
        ensures { result ≡ record { entries = holds.items; request = Low; stalls = 0 } }
    {
        Holding {
            entries: VecDeque::from_vec(holds),
            request: DmaRequest::Low,
            stalls: 0,
        }
    }

    /// Shows the line between two device steps.
    pub fn show(&mut self, line: bool)
        ensures { self.new ≡ shown line self.old }
    {
        if !line {
            self.request = DmaRequest::Low;
        }
    }

    /// Looks at the line in a device step, and tells whether the request is granted in it.
    pub fn look(&mut self, line: bool) -> bool
        ensures after { self.new ≡ looked line self.old }
        ensures due { result ≡ is_due self.new.request }
    {
        if line {
            self.wait();
        } else {
            self.request = DmaRequest::Low;
        }
        self.is_due()
    }

    /// The line is high: a new request takes the next hold, 0 where none is left.
    #[inline(never)]
    fn wait(&mut self)
        ensures { self.new ≡ waited self.old.request self.old }
    {
        match self.request {
            DmaRequest::Low => {
                let hold = self.next_hold();
                self.request = DmaRequest::High { left: hold };
            }
            DmaRequest::High { left } => {
                self.request = DmaRequest::High {
                    left: left.saturating_sub(1),
                };
            }
        }
    }

    /// Takes the next hold, and counts a stall where it is above 8.
    fn next_hold(&mut self) -> u8
        ensures hold { result ≡ next_entry self.old.entries }
        ensures rest { self.new ≡ record self.old {
          entries = rest_of self.old.entries;
          stalls = stalls_with (next_entry self.old.entries) self.old.stalls;
        } }
    {
        let hold = self.entries.pop_front().unwrap_or(0);
        if hold > LONGEST {
            self.stalls = self.stalls.saturating_add(1);
        }
        hold
    }

    /// The line was low when it was looked at last.
    pub fn is_low(&self) -> bool
        ensures { result ≡ is_low self.now.request }
    {
        matches!(self.request, DmaRequest::Low)
    }

    fn is_due(&self) -> bool
        ensures { result ≡ is_due self.now.request }
    {
        matches!(self.request, DmaRequest::High { left: 0 })
    }

    /// The ranges of the holds and of the request; it does nothing.
    pub fn ranges(&self)
        ensures { AreShort self.now }
    {
        let (first, second) = self.entries.as_slices();
        keep_entries(first);
        keep_entries(second);
        keep_request(self.request);
    }

    /// How many holds above 8 were taken. The count stays at its last value.
    pub fn stalls(&self) -> u64
        ensures { result ≡ self.now.stalls }
    {
        self.stalls
    }
}

/// The range of holds; it does nothing.
fn keep_entries(_entries: &[u8])
    ensures { All (λ entry. entry ≤ 255) _entries.now }
{}

/// The range of a request; it does nothing.
fn keep_request(request: DmaRequest)
    ensures { IsShort request }
{
    match request {
        DmaRequest::Low => {}
        DmaRequest::High { left: _left } => {}
    }
}
