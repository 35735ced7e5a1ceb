// The arguments (words) of the program, done over a session.
ghost use Rattle.std.specs.Prelude.{◌≡◌, Option, None, Ok, map, string_bytes};
ghost use Rattle.floppy_tools.specs.Common.{Blames, IsFresh, Form, form_of, Reads, Ran, Runs, faulty_outside_of};
ghost use Rattle.commands.specs.Hands.{hand_of};
ghost use Rattle.floppy_tools.specs.Programs.{Does, DoesForm, RanWords, world_of};

use archive_commands::{from_imd, remaster_disk, survey_disk, to_imd};
use commands::{Run, put_last_bad_words};
use disk_commands::{
    copy_disk, exercise_disk, export_disk, format_disk, import_disk, rescue_disk, verify_disk,
};
use flop_base::{NoMemory, Rate, Shelf, Sink, Status};
use floppy_session::Session;
use floppy_words::{Form, form_named};
use sector_model::Station;
use std::alloc::Global;
use text_commands::{play, serve_calls};

/// Does what the words after the program's name say, on a fresh station. `floppy` says what each subcommand (form)
/// does. `ports FILE` is none of these, because a station has no ports. A report is printed to the output (sink), and
/// the status says how the run ended. The station comes back in every case.
pub fn run_words<S: Shelf, K: Sink, D: Station>(
    alloc: Global,
    words: &[String],
    shelf: &mut S,
    out: &mut K,
    station: D,
) -> (Status, D)
    requires fresh { IsFresh (D.shown station) }
    requires ready { D.is_ready station }
    // The main clause: what is printed and stored is a run of the sector model.
    ensures ran { RanWords (map string_bytes words.now)
        (D.shown station) (faulty_outside_of S.told S.fault_count K.told K.fault_count shelf.old out.old)
        (D.shown result.1) (faulty_outside_of S.told S.fault_count K.told K.fault_count shelf.new out.new) result.0 }
    ensures ready { D.is_ready result.1 }
{
    let mut session = Session::new(alloc, station);
    let asked = form_named(alloc, words);
    let status = run_asked(alloc, &mut session, asked, shelf, out);
    (status, session.into_station())
}

/// Does what was read of the words: what a subcommand asks for. If the words are no subcommand, or memory for them ran
/// out, nothing is done.
pub fn run_asked<S: Shelf, K: Sink, D: Station>(
    alloc: Global,
    session: &mut Session<D>,
    asked: Result<Option<Form>, NoMemory>,
    shelf: &mut S,
    out: &mut K,
) -> Status
    ensures runs { (spelled : Option Form) → Reads asked spelled → Runs (Does spelled)
        (world_of S.told K.told session.old shelf.old out.old) (world_of S.told K.told session.new shelf.new out.new) result }
    ensures bad_words { result ≡ Status.BadWords → asked ≡ Ok None }
    ensures shelf_faults { Blames (result ≡ Status.FileFault) (S.fault_count shelf.old) (S.fault_count shelf.new) }
    ensures sink_faults { Blames (result ≡ Status.SinkFault) (K.fault_count out.old) (K.fault_count out.new) }
{
    match asked {
        Ok(Some(form)) => {
            let mut run = Run {
                alloc,
                session,
                shelf,
                out,
            };
            perform_form(&mut run, form)
        }
        Ok(None) => put_last_bad_words(out),
        Err(NoMemory) => Status::NoMemory,
    }
}

/// Does what a subcommand asks for.
fn perform_form<S: Shelf, K: Sink, D: Station>(
    run: &mut Run<'_, '_, '_, D, S, K>,
    form: Form,
) -> Status
    ensures { Ran (hand_of S.told S.fault_count K.told K.fault_count) (Runs (DoesForm form)) run.old run.new result }
{
    match form {
        Form::Play { job } => play(run, job.as_str()),
        Form::Format { name, cylinders } => format_disk(run, name, cylinders.count(), Rate::R500),
        Form::FormatDd { name, cylinders } => format_disk(run, name, cylinders.count(), Rate::R250),
        Form::Copy { from, to } => copy_disk(run, from, to),
        Form::Verify { name } => verify_disk(run, name),
        Form::FromImd { imd, name } => from_imd(run.alloc, imd, name, run.shelf, run.out),
        Form::ToImd { name, imd } => to_imd(run.alloc, name, imd, run.shelf, run.out),
        Form::Survey { name } => survey_disk(run.alloc, name, run.shelf, run.out),
        Form::Remaster { from, to } => remaster_disk(run.alloc, from, to, run.shelf, run.out),
        Form::Import { flat, name } => import_disk(run, flat, name),
        Form::Export { name, flat } => export_disk(run, name, flat),
        Form::Exercise { seed, count } => exercise_disk(run, seed, count),
        Form::Int13 { calls } => serve_calls(run, calls),
        Form::Rescue { from, to, log } => rescue_disk(run, from, to, log),
    }
}
