// The codes of the driver's answers.
ghost use Rattle.std.specs.Prelude.{◌≡◌};
ghost use Rattle.telwyddus_c.specs.Disks.{answer_code as answer_code_of, refusal_code as refusal_code_of};

use crate::code::{
    BAD_CRC, CHANGED, DONE, NO_MARK, NOT_FOUND, NOT_READY, OUT_OF_RANGE, OVERRUN, PROTECTED, SEEK,
};
use flop_base::Code;

/// The code of a refusal.
pub(crate) fn refusal_code(code: Code) -> u32
    ensures { result ≡ refusal_code_of code }
{
    match code {
        Code::BadRequest | Code::Page => OUT_OF_RANGE,
        Code::NotReady => NOT_READY,
        Code::Changed => CHANGED,
        Code::Protected => PROTECTED,
        Code::NoMark => NO_MARK,
        Code::NotFound => NOT_FOUND,
        Code::BadCrc => BAD_CRC,
        Code::Overrun => OVERRUN,
        Code::Seek => SEEK,
    }
}

/// The code of an answer that has nothing but done or refused.
pub(crate) fn answer_code(answer: Result<(), Code>) -> u32
    ensures { result ≡ answer_code_of answer }
{
    match answer {
        Ok(()) => DONE,
        Err(code) => refusal_code(code),
    }
}
