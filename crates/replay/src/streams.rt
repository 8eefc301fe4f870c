// A reader and a writer, whole: a read or a write that is cut short goes on, one that is interrupted or would block is tried again some times, and one
// that fails is returned as an error. The program's are standard input and output.
ghost use Rattle.std.specs.Prelude.{◌≤◌, length, IfOk, OnOk};
ghost use Rattle.std.specs.Io.{ReadsAtMost};
ghost use Rattle.std.specs.Io.KnownBytes.{Appends, ReadConsumes, WriteAppends};
ghost use Rattle.replay.specs.Counts.{All, AllRead};

use std::io::{self, ErrorKind, Read, Write};
use std::thread;

// How often one read or write is tried: another process runs in between, so that a reader or a writer that is there comes in time.
const TRIES: usize = 10000;

// The call was interrupted, or would have had to wait.
fn is_passing(error: &io::Error) -> bool {
    matches!(error.kind(), ErrorKind::Interrupted | ErrorKind::WouldBlock)
}

// Writes some of the bytes: how many.
fn put_some<W: Write>(output: &mut W, bytes: &[u8]) -> io::Result<usize>
    ensures bound { IfOk result (λ n. n ≤ length bytes.now) }
    ensures bytes { WriteAppends (W.contents output.old) (W.contents output.new) result bytes.now }
{
    for _ in 1..TRIES {
        match output.write(bytes) {
            Err(error) if is_passing(&error) => thread::yield_now(),
            tried => return tried,
        }
    }
    output.write(bytes)
}

// Writes all of the bytes, or tells why it cannot. `write_all` would give up at a writer that would block.
pub(crate) fn put<W: Write>(output: &mut W, bytes: &[u8]) -> io::Result<()>
    ensures { OnOk result (Appends (W.contents output.old) (W.contents output.new) bytes.now) }
{
    let n = bytes.len();
    let mut done = 0;
    while done < n {
        let some = put_some(output, &bytes[done..])?;
        if some == 0 {
            return Err(io::Error::from(ErrorKind::WriteZero));
        }
        done += some;
    }
    Ok(())
}

// Reads some bytes to the front of a slice: how many. One function for this and `put_some` would take the call as a closure, and would say over the states of
// that closure what these clauses say of a stream: longer than the lines that it saves.
fn read_some<R: Read>(input: &mut R, bytes: &mut [u8]) -> io::Result<usize>
    ensures bound { ReadsAtMost result bytes.new }
    ensures bytes { ReadConsumes (R.remaining input.old) (R.remaining input.new) result bytes.new }
{
    for _ in 1..TRIES {
        match input.read(bytes) {
            Err(error) if is_passing(&error) => thread::yield_now(),
            tried => return tried,
        }
    }
    input.read(bytes)
}

// Reads all of a reader to the front of a slice, or tells why it cannot: so many bytes, as `read` counts them, or `None` where there are as many as there is
// room for, or more.
// `read_exact` calls an end before the slice is full an error, and would not tell how far it came.
pub(crate) fn get<R: Read>(input: &mut R, bytes: &mut [u8]) -> io::Result<Option<usize>>
    ensures count { All (length bytes.old) result }
    ensures bytes { AllRead (R.remaining input.old) (R.remaining input.new) result bytes.new }
{
    let n = bytes.len();
    let mut done = 0;
    while done < n {
        let some = read_some(input, &mut bytes[done..])?;
        if some == 0 {
            return Ok(Some(done));
        }
        done += some;
    }
    Ok(None)
}
