// The diskette service, call by call.
ghost use Rattle.std.specs.Prelude.{◌≡◌, ◌==◌, ◌||◌, ◌+◌, ◌*◌, false, if◌then◌else◌};
ghost use Rattle.bios_int13.specs.Registers.{ah, al, gives_parameters};
ghost use Rattle.bios_int13.specs.Table.{work_of, IsDoable, IsAnswerTo, drive_type_of, ah_after, al_after, carry_after};

use crate::regs::register;
use crate::work::transfer;
use crate::{Kind, Regs, Work};
use flop_base::Code;
use std::marker::Model;

// The functions of the service, which AH names.
const RESET: u8 = 0x00;

const STATUS: u8 = 0x01;

const READ: u8 = 0x02;

const WRITE: u8 = 0x03;

const VERIFY: u8 = 0x04;

const PARAMETERS: u8 = 0x08;

const DRIVE_TYPE: u8 = 0x15;

const CHANGED: u8 = 0x16;

/// What the service keeps between calls. Contracts see it as the status, which is the code that function 01 answers.
#[derive(Drop)]
pub struct Int13 {
    status: u8,
}

impl Model for Int13 {
    ghost use Rattle.std.specs.Prelude.{ℕ};

    ghost Value = { ℕ };

    ghost view = { λ front. front.status };
}

/// Tells in AH whether DL is a drive with a change line (02) or no drive (00), and clears the carry flag.
fn with_drive_type(regs: Regs) -> Regs
    ensures { result ≡ record regs { ax = drive_type_of regs * 256 + al regs; carry = false } }
{
    let drive_type = if regs.names_drive() { 0x02 } else { 0x00 };
    Regs {
        ax: register(drive_type, regs.al()),
        carry: false,
        ..regs
    }
}

/// Tells the parameters of a 1.44 MB drive: its type in BL, the last cylinder and record in CX, the last head in DH,
/// and the number of drives in DL.
fn with_parameters(regs: Regs) -> Regs
    ensures { result ≡ record regs { ax = ah regs * 256; bx = 0x0004; cx = 0x4F12; dx = 0x0102 } }
{
    Regs {
        ax: register(regs.ah(), 0x00),
        bx: 0x0004,
        cx: 0x4F12,
        dx: 0x0102,
        ..regs
    }
}

impl Int13 {
    /// The service with status 00.
    pub fn new() -> Int13
        ensures { result ≡ 0 }
    {
        Int13 { status: 0x00 }
    }

    /// What the call asks for. If nothing has to be done for the call, this is its answer (INT 13h of the PC/AT BIOS).
    #[tactic(auto, unfolding(crate::specs::Table::work_of))]
    pub fn plan(&self, regs: Regs) -> Work
        ensures work { result ≡ work_of self.now regs }
        ensures doable { IsDoable result }
    {
        match regs.ah() {
            RESET | DRIVE_TYPE => Work::Answer { code: 0x00 },
            STATUS => Work::Answer { code: self.status },
            READ => transfer(Kind::Read, regs),
            WRITE => transfer(Kind::Write, regs),
            VERIFY => transfer(Kind::Verify, regs),
            PARAMETERS if regs.names_drive() => Work::Answer { code: 0x00 },
            CHANGED if regs.names_drive() => Work::Changed { bay: regs.dl() },
            _ => Work::Answer {
                code: Code::BadRequest.number(),
            },
        }
    }

    /// The registers after the call. Its work gave this code and moved this many records without a refusal. If the
    /// answer was planned, the code is the planned one.
    pub fn finish(&mut self, regs: Regs, code: u8, moved: u8) -> Regs
        requires { IsAnswerTo (work_of self.old regs) code moved }
        ensures in_ah { ah result ≡ ah_after regs code }
        ensures in_al { al result ≡ al_after regs moved }
        ensures in_bx { result.bx ≡ (if gives_parameters regs then 0x0004 else regs.bx) }
        ensures in_cx { result.cx ≡ (if gives_parameters regs then 0x4F12 else regs.cx) }
        ensures in_dx { result.dx ≡ (if gives_parameters regs then 0x0102 else regs.dx) }
        ensures in_es { result.es ≡ regs.es }
        ensures carry { result.carry ≡ carry_after regs code }

        // The calls that answer the status or the drive's type leave the status as it was.
        ensures status { self.new ≡ (if ah regs == 0x01 || ah regs == 0x15 then self.old else code) }
    {
        let function = regs.ah();
        if function == DRIVE_TYPE {
            return with_drive_type(regs);
        }
        if function != STATUS {
            self.status = code;
        }
        let answered = Regs {
            ax: register(code, regs.al()),
            carry: code != 0x00,
            ..regs
        };
        match function {
            READ | WRITE | VERIFY => Regs {
                ax: register(code, moved),
                ..answered
            },
            PARAMETERS if regs.names_drive() => with_parameters(answered),
            _ => answered,
        }
    }
}
