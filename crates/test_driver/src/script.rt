// The troubles that are planned, and the calls that came.
use flop_base::Rate;
use std::alloc::{AllocError, Global};

/// A trouble of a data command.
#[derive(Clone, Copy)]
pub enum CommandTrouble {
    /// No trouble: the command runs as it should.
    Calm,
    /// No address mark is read: a fault of the drive.
    Unmarked,
    /// A CRC is wrong: a fault of the drive.
    Damaged,
    /// A DMA request waits too long.
    Stalled,
}

/// A movement of heads, or a data command.
#[derive(Clone, Copy, Debug, PartialEq, Eq)]
pub enum Call {
    Recalibrate,
    Seek(u8),
    ReadId(Rate),
    Read,
    ReadBack(u8),
    Write,
    Format,
}

/// The troubles that are planned. Each of the next data commands takes the next trouble, and each of the next movements
/// of heads takes the next number of pulses that it loses. After the last one, commands and movements have no trouble.
#[derive(Drop)]
pub(crate) struct Script {
    troubles: Vec<CommandTrouble>,
    lost: Vec<u8>,
    next_trouble: usize,
    next_lost: usize,
    calls: Vec<Call>,
}

impl Script {
    /// No troubles.
    pub fn calm(alloc: Global) -> Script {
        Script {
            troubles: Vec::new(alloc),
            lost: Vec::new(alloc),
            next_trouble: 0,
            next_lost: 0,
            calls: Vec::new(alloc),
        }
    }

    /// Plans the troubles of the next data commands.
    pub fn plan(&mut self, troubles: &[CommandTrouble]) -> Result<(), AllocError> {
        self.troubles.clear();
        self.next_trouble = 0;
        self.troubles.extend_from_slice(troubles)
    }

    /// Plans how many pulses the next movements of heads lose.
    pub fn lose(&mut self, lost: &[u8]) -> Result<(), AllocError> {
        self.lost.clear();
        self.next_lost = 0;
        self.lost.extend_from_slice(lost)
    }

    /// The trouble of the next data command.
    pub fn trouble(&mut self) -> CommandTrouble {
        let at = self.next_trouble;
        self.next_trouble = at.saturating_add(1);
        if at < self.troubles.len() {
            self.troubles[at]
        } else {
            CommandTrouble::Calm
        }
    }

    /// How many pulses the next movement loses.
    pub fn lost_pulses(&mut self) -> u8 {
        let at = self.next_lost;
        self.next_lost = at.saturating_add(1);
        if at < self.lost.len() {
            self.lost[at]
        } else {
            0
        }
    }

    /// Notes a call, as long as memory lasts.
    pub fn note(&mut self, call: Call) {
        let _ = self.calls.push(call);
    }

    /// The calls that were noted, in their order.
    pub fn calls(&self) -> &[Call] {
        &self.calls
    }

    /// Forgets the calls.
    pub fn forget_calls(&mut self) {
        self.calls.clear();
    }
}
