//! Tests as data: reads scenes from standard input, plays each of them on the program over a machine, and prints
//! reports and sums. A scene can also ask pure functions about the bytes of a file, a part of the machine alone, or a
//! driver on its bench; then it prints the answers.
#![tactic(auto)]

mod answers;
mod runs;
mod scene;
mod shown;

use flop_base::Sink;
use flop_outside::StreamSink;
use scene::play;
use std::io;
use std::process::ExitCode;
use test_files::Draft;

fn main(rt: HostRuntime) -> ExitCode {
    let alloc = rt.alloc();
    let Ok(text) = io::read_to_string(alloc, rt.reader()) else {
        return ExitCode::from(2);
    };
    let mut out = Draft::new(alloc);
    let played = play(alloc, text.as_str(), &mut out);
    let mut sink = StreamSink::new(&rt);
    if sink.put(out.bytes()).is_err() || played.is_err() {
        return ExitCode::from(1);
    }
    ExitCode::from(0)
}
