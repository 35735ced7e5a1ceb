// The format of a whole disk.
ghost use Rattle.std.specs.Prelude.{◌≡◌, ◌*◌, IfOk, string_bytes};
ghost use Rattle.disk_commands.specs.Common.{RunsScript, Goes, Runs, Ran, RanPart};
ghost use Rattle.disk_commands.specs.Format.{format_text, formats_disk, format_script};

use commands::{AnyRun, acknowledge, blank_request, format_tracks};
use flop_base::{Name, Rate, Status};
use floppy_jobs::Request;
use std::alloc::{AllocError, Global};

#[tactic(auto, unfolding(crate::specs::Format::format_text))]
fn format_line(alloc: Global, cylinders: u8) -> Result<String, AllocError>
    ensures { IfOk result (λ line. string_bytes line ≡ format_text (cylinders * 2)) }
{
    let tracks = cylinders as u16 * 2;
    format!(in alloc; "format ok {tracks}\n")
}

/// Runs all requests of a format.
#[tactic(auto, unfolding(crate::specs::Format::formats_disk))]
fn run_format<R: AnyRun>(run: &mut R, name: Name, cylinders: u8, rate: Rate) -> Result<(), Status>
    ensures { RanPart R.hand (Goes (formats_disk name cylinders rate)) run.old result run.new }
{
    run.carry(&blank_request(0, name, cylinders, rate))?;
    acknowledge(run, 0, rate)?;
    format_tracks(run, 0, cylinders, 2)?;
    run.carry(&Request::Eject { bay: 0 })
}

/// Makes a disk of this many cylinders with two heads, formats it at this rate, and stores it under the name. Prints
/// how many tracks were formatted, or what stopped the format.
#[tactic(auto, using(commands::proofs::Running::finished), unfolding(crate::specs::Format::format_script))]
pub fn format_disk<R: AnyRun>(run: &mut R, name: Name, cylinders: u8, rate: Rate) -> Status
    ensures { Ran R.hand (Runs (RunsScript (format_script name cylinders rate))) run.old run.new result }
{
    match run_format(run, name, cylinders, rate) {
        Ok(()) => run.finish(format_line(run.alloc(), cylinders), Status::AllOk),
        Err(ended) => ended,
    }
}
