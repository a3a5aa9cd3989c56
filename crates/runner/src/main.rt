// The runner: a stream of records on standard input, its lines on standard output.
//
// It says on descriptor 3 how it ended, `accepted` or `refused`, and nothing there where it could not read or write.
#![tactic(auto)]

use files::{Ended, Failure, Watched};
use std::fs;
use std::fs::OpenOptions;
use std::io::{ErrorKind, Write};
use std::process::ExitCode;

// The status that a shell gives to a program that ends because nobody reads what it writes.
const BROKEN_PIPE: u8 = 141;

fn main(rt: HostRuntime) -> ExitCode {
    let mut to = Watched {
        inner: rt.stdout(),
        error: None,
    };
    match files::run_all(&mut rt.stdin(), &mut to) {
        Ok(Ended::Accepted) => say(&rt, b"accepted\n"),
        Ok(Ended::Refused) => say(&rt, b"refused\n"),
        Err(Failure::Reading(e)) => files::fail(&rt, "meter: standard input", e),
        Err(Failure::Writing(e)) if e.kind() == ErrorKind::BrokenPipe => {
            return ExitCode::from(BROKEN_PIPE);
        }
        Err(Failure::Writing(e)) => files::fail(&rt, "meter: standard output", to.last(e)),
    }
    ExitCode::SUCCESS
}

// A word to descriptor 3, where somebody listens: where it is open for writing.
fn say(rt: &HostRuntime, word: &[u8]) {
    let Ok(info) = fs::read_to_string(rt, "/proc/self/fdinfo/3") else {
        return;
    };
    let Some((_, rest)) = info.as_str().split_once("flags:\t") else {
        return;
    };
    let Some((flags, _)) = rest.split_once("\n") else {
        return;
    };
    if !flags.ends_with(['1', '2']) {
        return;
    }
    if let Ok(mut listener) = OpenOptions::new()
        .read(true)
        .append(true)
        .open(rt, "/dev/fd/3")
    {
        let _ = listener.write_all(word);
    }
}
