// A text of port accesses is read and run to its end, or up to what stops it.
ghost use Rattle.std.specs.Prelude.{◌≡◌, ◌≢◌};
ghost use Rattle.text_commands.specs.Common.{Blames, board};
ghost use Rattle.text_commands.specs.Benches.{AreNamed, IsBare, bench_of, no_names};
ghost use Rattle.text_commands.specs.PortFaults.{Ran, RanPart, faulty_of};
ghost use Rattle.text_commands.specs.PortGuards.{RunsBare};
ghost use Rattle.text_commands.specs.PortLines.{is_refusal};
ghost use Rattle.text_commands.specs.PortPlays.{RoundGoes, RoundsGo, HasPlayed, EndsAs, PlaysGiven};

use crate::ending::either;
use crate::ports::answer::LineAnswer;
use crate::ports::doing::do_line;
use crate::ports::media::{Names, end};
use crate::ports::telling::put_answer;
use commands::{put_last, put_last_bad_line, stop_status, tell_missing_text, whole_status};
use drive_model::Drive;
use flop_base::{Shelf, Sink, Status, Two};
use floppy_jobs::{JobError, PortLine, parse_ports};
use pc_bus::MachineOf;
use std::alloc::Global;

/// The longest text of port accesses, in bytes.
const MOST_TEXT_BYTES: usize = 4_194_304;

/// Does a line and prints its answer; true if it was refused. The error is the status of a run that ends here.
fn run_one<S: Shelf, K: Sink, D: Drive>(
    alloc: Global,
    machine: &mut MachineOf<D>,
    names: &mut Names,
    line: &PortLine,
    shelf: &mut S,
    out: &mut K,
) -> Result<bool, Status>
    requires { AreNamed names.old (board D.state machine.old) }
    ensures { RanPart (RoundGoes line.now)
        (faulty_of D.state S.told S.fault_count K.told K.fault_count machine.old names.old shelf.old out.old) result
        (faulty_of D.state S.told S.fault_count K.told K.fault_count machine.new names.new shelf.new out.new) }
{
    match do_line(alloc, machine, names, line, shelf) {
        Ok(answer) => {
            machine.ranges();
            match put_answer(alloc, out, line, &answer) {
                Ok(()) => Ok(is_refusal(&answer)),
                Err(ended) => Err(ended),
            }
        }
        Err(stop) => Err(put_last(alloc, out, &stop)),
    }
}

fn is_refusal(answer: &LineAnswer) -> bool
    ensures { result ≡ is_refusal answer.now }
{
    match answer {
        LineAnswer::Refused(_) => true,
        LineAnswer::Nothing
        | LineAnswer::Byte { .. }
        | LineAnswer::Latch { .. }
        | LineAnswer::Done => false,
    }
}

/// Does lines in order and prints their answers; true if one was refused. The error is the status of a run that ends
/// here.
fn run_lines<S: Shelf, K: Sink, D: Drive>(
    alloc: Global,
    machine: &mut MachineOf<D>,
    names: &mut Names,
    lines: &[PortLine],
    shelf: &mut S,
    out: &mut K,
) -> Result<bool, Status>
    requires { AreNamed names.old (board D.state machine.old) }
    ensures { RanPart (RoundsGo lines.now)
        (faulty_of D.state S.told S.fault_count K.told K.fault_count machine.old names.old shelf.old out.old) result
        (faulty_of D.state S.told S.fault_count K.told K.fault_count machine.new names.new shelf.new out.new) }
{
    let mut refused = false;
    for line in lines {
        match run_one(alloc, machine, names, line, shelf, out) {
            Ok(refusal) => refused = either(refused, refusal),
            Err(ended) => return Err(ended),
        }
    }
    Ok(refused)
}

/// Stores what is left in the bays, and gives the status of a run to the end.
fn finish<S: Shelf, D: Drive>(
    alloc: Global,
    machine: &mut MachineOf<D>,
    names: &mut Names,
    shelf: &mut S,
    refused: bool,
) -> Status
    requires { AreNamed names.old (board D.state machine.old) }
    ensures ends { EndsAs refused (bench_of D.state S.told machine.old names.old shelf.old)
        (bench_of D.state S.told machine.new names.new shelf.new) result }
    ensures is_form { result ≢ Status.BadWords }
    ensures shelf_faults { Blames (result ≡ Status.FileFault) (S.fault_count shelf.old)
        (S.fault_count shelf.new) }
    ensures no_sink_fault { result ≢ Status.SinkFault }
{
    match end(alloc, machine, names, shelf) {
        Ok(()) => whole_status(refused),
        Err(stop) => stop_status(&stop),
    }
}

/// Runs lines on a machine whose bays are empty, and stores what is left in.
fn play_lines<S: Shelf, K: Sink, D: Drive>(
    alloc: Global,
    machine: &mut MachineOf<D>,
    names: &mut Names,
    lines: &[PortLine],
    shelf: &mut S,
    out: &mut K,
) -> Status
    requires { AreNamed names.old (board D.state machine.old) }
    ensures { Ran (HasPlayed lines.now)
        (faulty_of D.state S.told S.fault_count K.told K.fault_count machine.old names.old shelf.old out.old)
        (faulty_of D.state S.told S.fault_count K.told K.fault_count machine.new names.new shelf.new out.new) result }
{
    match run_lines(alloc, machine, names, lines, shelf, out) {
        Ok(refused) => finish(alloc, machine, names, shelf, refused),
        Err(ended) => ended,
    }
}

/// Runs the lines of this text.
fn play_text<S: Shelf, K: Sink, D: Drive>(
    alloc: Global,
    machine: &mut MachineOf<D>,
    names: &mut Names,
    text: &[u8],
    shelf: &mut S,
    out: &mut K,
) -> Status
    requires { AreNamed names.old (board D.state machine.old) }
    ensures { Ran (PlaysGiven text.now)
        (faulty_of D.state S.told S.fault_count K.told K.fault_count machine.old names.old shelf.old out.old)
        (faulty_of D.state S.told S.fault_count K.told K.fault_count machine.new names.new shelf.new out.new) result }
{
    match parse_ports(alloc, text) {
        Ok(lines) => play_lines(alloc, machine, names, &lines, shelf, out),
        Err(JobError::BadLine { line }) => put_last_bad_line(alloc, out, line),
        Err(JobError::NoMemory) => Status::NoMemory,
    }
}

/// Reads the text of this name and runs its lines on the machine as it stands, with no driver. Media that are left in
/// are stored.
pub fn run_ports<S: Shelf, K: Sink, D: Drive>(
    alloc: Global,
    machine: &mut MachineOf<D>,
    text_name: &str,
    shelf: &mut S,
    out: &mut K,
) -> Status
    requires { IsBare (board D.state machine.old) }
    ensures { Ran (RunsBare text_name.now)
        (faulty_of D.state S.told S.fault_count K.told K.fault_count machine.old no_names shelf.old out.old)
        (faulty_of D.state S.told S.fault_count K.told K.fault_count machine.new no_names shelf.new out.new) result }
{
    machine.ranges();
    let mut names = Two::new(None, None);
    match shelf.load(alloc, text_name, MOST_TEXT_BYTES) {
        Ok(text) => play_text(alloc, machine, &mut names, &text, shelf, out),
        Err(error) => tell_missing_text(alloc, text_name, error, out),
    }
}
