// One line of a text of calls: it is served, and its answer is printed.
ghost use Rattle.text_commands.specs.Common.{CallLine, RanPart};
ghost use Rattle.floppy_jobs.specs.declared.calls.CallLine.TheVariants as calls;
ghost use Rattle.text_commands.specs.CallLines.{LineHasTries, CallGoes, LineGoes};

use crate::calls::text::call_line;
use crate::jobs::run_one;
use bios_int13::{Int13, Regs};
use commands::AnyRun;
use flop_base::Status;
use floppy_jobs::CallLine;

/// Serves a call of INT 13h, and prints the registers after it; true if its carry is set.
fn call<R: AnyRun>(run: &mut R, front: &mut Int13, regs: Regs) -> Result<bool, Status>
    ensures { RanPart R.hand (CallGoes regs front.old front.new) run.old result run.new }
{
    let answered = run.int13(front, regs);
    match run.say(call_line(run.alloc(), answered)) {
        Ok(()) => Ok(answered.carry),
        Err(ended) => Err(ended),
    }
}

/// Serves a line, and prints what came of it; true if this counts as a refusal. The error is the status of a run that
/// ends here.
pub(crate) fn serve_line<R: AnyRun>(
    run: &mut R,
    front: &mut Int13,
    line: &CallLine,
) -> Result<bool, Status>
    requires { LineHasTries line.now }
    ensures { RanPart R.hand (LineGoes front.old front.new line.now) run.old result run.new }
{
    match line {
        CallLine::Job(request) => run_one(run, request),
        CallLine::Call { ax, bx, cx, dx, es } => {
            let regs = Regs {
                ax: *ax,
                bx: *bx,
                cx: *cx,
                dx: *dx,
                es: *es,
                carry: false,
            };
            call(run, front, regs)
        }
    }
}
