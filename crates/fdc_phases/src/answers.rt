// The result bytes of a command, and how the host reads them.
ghost use Rattle.std.specs.Prelude.{◌≡◌, false, Option, None};
ghost use Rattle.fdc_phases.specs.Answers.{st0_of, st1_of, st2_of, results_of, next_byte, after_byte, is_fresh};

use crate::phases::Phase;
use fdc_commands::Results;
use fdc_registers::{Flags, St0, St1, St2};
use fdc_stages::Ending;
use flop_base::Chrn;

/// The bytes that the host still has to read.
#[derive(Clone, Copy)]
pub enum Answer {
    /// The result bytes of a command without an execution phase.
    Short {
        next: u8,
        last: Option<u8>,
    },
    /// The seven of a data command with this ending, of which so many were read.
    Long {
        ending: Ending,
        results: Results,
        read: u8,
    },
}

/// The number of result bytes of a data command.
const LONG: u8 = 7;

/// Status register 0 of a data command, with the head and the drive as they were sent.
fn st0(ending: Ending, head_drive: u8) -> St0
    ensures { result ≡ st0_of ending head_drive }
{
    let place = St0(head_drive & 0x07);
    match ending {
        Ending::Done { .. } => place,
        _ => place.union(St0::ABNORMAL),
    }
}

/// Status register 1 of a data command.
fn st1(ending: Ending) -> St1
    ensures { result ≡ st1_of ending }
{
    match ending {
        Ending::Done { .. } => St1(0),
        Ending::NoMark | Ending::NoField | Ending::Late => St1::MISSING_MARK,
        Ending::NoSector => St1::NO_DATA,
        Ending::BadCheck => St1::DATA_ERROR,
        Ending::Overrun => St1::OVERRUN,
        Ending::NoCount => St1::END_OF_CYLINDER,
        Ending::Protected => St1::NOT_WRITABLE,
    }
}

/// Status register 2 of a data command.
fn st2(ending: Ending) -> St2
    ensures { result ≡ st2_of ending }
{
    match ending {
        Ending::Done { deleted: true } => St2::CONTROL_MARK,
        Ending::NoField => St2::MISSING_DATA_MARK,
        Ending::BadCheck => St2::DATA_FIELD_ERROR,
        _ => St2(0),
    }
}

/// The results of a data command with this ending and this key. `head_drive` has the head in bit 2 and the drive in
/// bits 1 and 0, as the command sent them.
pub fn results(ending: Ending, head_drive: u8, key: Chrn) -> Results
    ensures { result ≡ results_of ending head_drive key }
{
    Results {
        st0: st0(ending, head_drive),
        st1: st1(ending),
        st2: st2(ending),
        key,
    }
}

impl Answer {
    /// Whether these are the results of a data command, and none of them was read.
    pub fn is_fresh(self) -> bool
        ensures { result ≡ is_fresh self }
    {
        match self {
            Answer::Short { .. } => false,
            Answer::Long { read, .. } => read == 0,
        }
    }

    /// The byte that the host reads next; after the seventh of a data command it is FF.
    pub fn next(self) -> u8
        ensures { result ≡ next_byte self }
    {
        match self {
            Answer::Short { next, .. } => next,
            Answer::Long { results, read, .. } => match results.bytes().get(usize::from(read)) {
                Some(byte) => *byte,
                None => 0xFF,
            },
        }
    }

    /// The phase after the host read that byte; after the last one the controller takes commands.
    pub fn after(self) -> Phase
        ensures { result ≡ after_byte self }
    {
        match self {
            Answer::Short {
                last: Some(next),
                ..
            } => Phase::Result {
                answer: Answer::Short { next, last: None },
            },
            Answer::Short { last: None, .. } => Phase::Command,
            Answer::Long {
                ending,
                results,
                read,
            } => {
                if read >= LONG - 1 {
                    return Phase::Command;
                }
                Phase::Result {
                    answer: Answer::Long {
                        ending,
                        results,
                        read: read + 1,
                    },
                }
            }
        }
    }
}
