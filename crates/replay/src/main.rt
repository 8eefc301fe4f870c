// Replays the trace on standard input: its lines go to standard output. All that matters is the layer's `replay`. Here the images are zeros,
// lines are written as they come, and a trace that is too long is only said to be. What cannot be read or written is told on standard error, and ends
// the program with status 1.
#![tactic(auto)]

ghost use Rattle.std.specs.Prelude.{◌≤◌, ◌<◌, length, IfOk, IfSome};

mod streams;

use layer::Progress;
use lines::Line;
use std::io::{self, Write};
use std::process::ExitCode;
use table::Table;
use types::Image;

// The most bytes that a trace may have here.
const MAX_TRACE: usize = 65536;

// Room for the longest line, that of a fetch of a whole image, so that each turn comes further.
const ROOM: usize = 4 * Image::BYTES + Line::ROOM;

// What the layer is lent: the table, and the images of memory and flash.
#[derive(Drop)]
struct Lent {
    table: [u32; Table::WORDS],
    memory: [u8; Image::BYTES],
    flash: [u8; Image::BYTES],
}

impl Lent {
    // Lines from a place of the trace on, as many bytes of them as the run tells; the place to go on from, where there are more.
    // Their room is on the stack of this function alone: a trace that is too long or cannot be read is told without it.
    #[inline(never)]
    fn write_lines<W: Write>(
        &mut self,
        output: &mut W,
        trace: &[u8],
        at: usize,
    ) -> io::Result<Option<usize>>
        ensures { IfOk result (λ more. IfSome more (λ next. (at < next) × (next ≤ length trace.now))) }
    {
        let mut lines = [0u8; ROOM];
        let progress = layer::replay(
            trace,
            at,
            &mut self.table,
            &mut self.memory,
            &self.flash,
            &mut lines,
        );
        let (more, written) = match progress {
            Progress::Ended(n) => (None, &lines[..n]),
            Progress::Paused(next, n) => (Some(next), &lines[..n]),
        };
        streams::put(output, written)?;
        Ok(more)
    }

    // All lines: each turn comes further in the trace, and says where the next one goes on.
    fn write_all_lines<W: Write>(&mut self, output: &mut W, trace: &[u8]) -> io::Result<()> {
        let mut more = Some(0);
        while let Some(at) = more {
            more = self.write_lines(output, trace, at)?;
        }
        Ok(())
    }
}

fn replay<W: Write>(output: &mut W, trace: &[u8]) -> io::Result<()> {
    let mut lent = Lent {
        table: [0; Table::WORDS],
        memory: [0; Image::BYTES],
        flash: [0; Image::BYTES],
    };
    lent.write_all_lines(output, trace)
}

// The line of a trace that is too long.
fn tell_too_long<W: Write>(output: &mut W) -> io::Result<()> {
    let mut line = [0u8; Line::ROOM];
    let end = lines::put_too_long(&mut line, 0);
    streams::put(output, &line[..end])
}

// Tells what could not be done, and why. Where that cannot be written either, the status still says it.
fn fail(rt: &impl Eprint, what: &str, why: &io::Error) -> ExitCode {
    let _ = eprintln!(rt; "replay: {what}: {why}");
    ExitCode::FAILURE
}

fn main(rt: HostRuntime) -> ExitCode {
    // One byte more than a trace may have is enough to see that it is too long.
    let mut input = [0u8; MAX_TRACE + 1];
    let mut output = rt.stdout();
    let written = match streams::get(&mut rt.stdin(), &mut input) {
        Ok(Some(n)) => replay(&mut output, &input[..n]),
        Ok(None) => tell_too_long(&mut output),
        Err(why) => return fail(&rt, "the trace could not be read", &why),
    };
    match written {
        Ok(()) => ExitCode::SUCCESS,
        Err(why) => fail(&rt, "the lines could not all be written", &why),
    }
}
