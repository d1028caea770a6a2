// The streams of a run. A call that a signal interrupts is made again.
ghost use Rattle.std.specs.Prelude.{IfOk, ◌<◌, length};
ghost use Rattle.std.specs.Io.{ReadsAtMost, WritesAtMost};
ghost use Rattle.stops.specs.Input.{TakenWhole};

use std::io;
use std::io::{Cursor, ErrorKind, Read, Write};

// Reads once, or as often as signals ask. Nothing says that signals cease, so the tries are counted, to a number that
// no run comes to.
pub fn read(reader: &mut impl Read, buffer: &mut [u8]) -> io::Result<usize>
    requires { 0 < length buffer.old }
    ensures { ReadsAtMost result buffer.new }
{
    for _ in 0..u64::MAX {
        match reader.read(buffer) {
            Err(error) if error.kind() == ErrorKind::Interrupted => {}
            got => return got,
        }
    }
    Err(io::Error::from(ErrorKind::Interrupted))
}

// Writes some of the bytes, and tries as often as signals ask: std's own `write_all` gives up after a few tries. A write
// that takes nothing has failed.
fn write(rt: &impl Print, bytes: &[u8]) -> io::Result<usize>
    ensures bound { WritesAtMost result bytes.now }
    ensures some { IfOk result (λ n. 0 < n) }
{
    for _ in 0..u64::MAX {
        match rt.write_some(bytes) {
            Ok(0) => return Err(io::Error::from(ErrorKind::WriteZero)),
            Err(error) if error.kind() == ErrorKind::Interrupted => {}
            put => return put,
        }
    }
    Err(io::Error::from(ErrorKind::Interrupted))
}

// Names the stream that failed and the cause on standard error. Where that fails too, nobody is left to tell.
pub fn say_failed(rt: &impl Eprint, stream: &str, error: &io::Error) {
    let mut text = Cursor::new([0u8; 256]);
    let _ = write!(text, "{error}");
    let text = text.into_inner();
    let cause = cause_in(&text);
    let _ = eprintln!(rt; "{stream}: {cause}");
}

// The system's words in an error's text, which stands before zeros, without the number that std adds to them.
fn cause_in(text: &[u8]) -> &str {
    let text = str::from_utf8(text).unwrap_or("");
    let text = text.trim_end_matches('\0');
    match text.split_once(" (os error ") {
        Some((cause, _)) => cause,
        None => text,
    }
}

// Writes all the bytes, each write going on where the one before stopped, and answers whether all were taken.
pub fn write_all(rt: &(impl Print + Eprint), bytes: &[u8]) -> bool
    ensures { TakenWhole result (length bytes.now) }
{
    let mut done = 0;
    while done < bytes.len() {
        match write(rt, &bytes[done..]) {
            Ok(n) => done += n,
            Err(error) => {
                say_failed(rt, "standard output", &error);
                return false;
            }
        }
    }
    true
}
