// Streams from a reader and outputs to a writer. What is read and written is the system's, and no contract can say it; but a read or a
// write that fails is told, and where a reader's or a writer's bytes are known, so is what becomes of them.
#![tactic(auto)]

ghost use Rattle.std.specs.Prelude.{◌≡◌, ◌⊎◌, take, length, IfOk, OnOk, IfErr, IfSome, IfNone};
ghost use Rattle.std.specs.IoError.{error_kind, raw_os_error, os_error_kind};
ghost use Rattle.std.specs.Io.{WritesAtMost};
ghost use Rattle.std.specs.Io.KnownBytes.{Consumes, Appends, WriteAppends};
ghost use Rattle.rules.specs.Runner.{output_of};
ghost use Rattle.files.specs.declared.Failure.TheVariants.{Reading, Writing};
ghost use Rattle.files.specs.Ends.{ReadInto, EndsAs, stream_front, OnUnread};

use std::io;
use std::io::{Read, Write};

// Reads to the end of the input, or until the buffer is full. A read that fails is told, whatever was read before it.
pub fn read_all<R: Read>(from: &mut R, buffer: &mut [u8]) -> io::Result<usize>
    ensures read { ReadInto result buffer.new }
    ensures taken { IfOk result (λ n. Consumes (R.remaining from.old) (R.remaining from.new) (take n buffer.new)) }
    ensures known { IfOk result (λ n. IfSome (R.remaining from.old) (λ bytes. take n buffer.new ≡ take (length buffer.new) bytes)) }
{
    // bytes are counted, not elements; the library reads to the end into a heap, or fails on a short input
    let mut at = 0;
    while at < buffer.len() {
        match from.read(&mut buffer[at..])? {
            0 => break,
            more => at += more,
        }
    }
    Ok(at)
}

// How a run ended whose output was written: its stream passed the tests or was refused.
#[derive(Clone, Copy, Debug, PartialEq, Eq)]
pub enum Ended {
    Accepted,
    Refused,
}

// The runner's whole output for a stream, written to a writer. Only that of a refused stream begins with an X.
pub fn print<W: Write>(stream: &[u8], to: &mut W) -> io::Result<Ended>
    ensures ends { EndsAs stream.now result }
    ensures written { OnOk result (Appends (W.contents to.old) (W.contents to.new) (output_of stream.now)) }
{
    let mut out = run::output_room();
    let size = run::run(stream, &mut out);
    to.write_all(&out[..size])?;
    if out[0] == b'X' {
        return Ok(Ended::Refused);
    }
    Ok(Ended::Accepted)
}

// Why a run did not end: its stream could not be read, or its output could not be written, or not all of it.
#[derive(Clone, Copy, Debug)]
pub enum Failure {
    Reading(io::Error),
    Writing(io::Error),
}

// The run of the stream that a reader gives: read, and its output written.
pub fn run_all<R: Read, W: Write>(from: &mut R, to: &mut W) -> Result<Ended, Failure>
    ensures ends { IfSome (R.remaining from.old) (λ bytes. EndsAs (stream_front bytes) result) }
    ensures written { IfSome (R.remaining from.old) (λ bytes.
        OnOk result (Appends (W.contents to.old) (W.contents to.new) (output_of (stream_front bytes)))) }
    ensures unread { IfErr result (λ e. OnUnread e (to.new ≡ to.old)) }
{
    // a byte more than a stream may have, so that a longer one is seen
    let mut stream = run::input_room();
    let length = read_all(from, &mut stream).map_err(Failure::Reading)?;
    print(&stream[..length], to).map_err(Failure::Writing)
}

impl From<Failure> for io::Error {
    ghost from_gives = { λ failure e. (failure ≡ Reading e) ⊎ (failure ≡ Writing e) };

    fn from(failure: Failure) -> io::Error {
        match failure {
            Failure::Reading(e) | Failure::Writing(e) => e,
        }
    }
}

// ---- why a write failed

// A writer, and the system's number of the last error that it gave. A write that was interrupted is tried again, and what ends the trying may
// have no number of its own.
#[derive(Drop)]
pub struct Watched<W> {
    pub inner: W,
    pub error: Option<i32>,
}

impl<W: Write> Write for Watched<W> {
    ghost contents = { λ watched. W.contents watched.inner };

    // Beside what any writer promises: the error that is given is the one that is kept.
    fn write(&mut self, bytes: &[u8]) -> io::Result<usize>
        ensures bound { WritesAtMost result bytes.now }
        ensures bytes { WriteAppends (W.contents self.old.inner) (W.contents self.new.inner) result bytes.now }
        ensures kept { IfErr result (λ e. self.new.error ≡ raw_os_error e) }
        ensures before { IfOk result (λ n. self.new.error ≡ self.old.error) }
    {
        match self.inner.write(bytes) {
            Ok(n) => Ok(n),
            Err(e) => {
                self.error = e.raw_os_error();
                Err(e)
            }
        }
    }

    fn flush(&mut self) -> io::Result<()> {
        self.inner.flush()
    }
}

impl<W> Watched<W> {
    // The last error that the writer gave, or this one where it gave none with a number.
    pub fn last(&self, other: io::Error) -> io::Error
        ensures none { IfNone self.now.error (result ≡ other) }
        ensures code { IfSome self.now.error (λ code. raw_os_error result ≡ Some code) }
        ensures kind { IfSome self.now.error (λ code. error_kind result ≡ os_error_kind code) }
    {
        match self.error {
            None => other,
            Some(code) => io::Error::from_raw_os_error(code),
        }
    }
}

// A line on standard error: what failed, a colon, and the system's words for the error.
pub fn fail<R: Eprint + Alloc>(rt: &R, what: &str, error: io::Error) {
    let Some(code) = error.raw_os_error() else {
        let _ = eprintln!(rt; "{what}: it failed");
        return;
    };
    let Ok(text) = format!(in rt.alloc(); "{error}") else {
        let _ = eprintln!(rt; "{what}: error {code}");
        return;
    };
    // the library puts the number behind the words
    let text = text.as_str();
    let words = text
        .split_once(" (os error ")
        .map_or(text, |(words, _)| words);
    let _ = eprintln!(rt; "{what}: {words}");
}
