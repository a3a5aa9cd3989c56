// Runs each case of data/ in the order of the arguments, and writes its name and the runner's lines. What is expected comes from a model of
// its own (tools/cases.py); it is compared with the file stdout.
#![tactic(auto)]

use files::Watched;
use std::env;
use std::fs::File;

fn main(rt: HostRuntime) {
    match env::args(&rt) {
        Ok(args) => {
            for name in args.skip(1) {
                case(&rt, name.as_str());
            }
        }
        Err(e) => files::fail(&rt, "argument", e),
    }
}

// The case of this name: its name, and its lines from the file that holds its stream.
fn case(rt: &HostRuntime, name: &str) {
    let _ = println!(rt; "== {name}");
    let mut to = Watched {
        inner: rt.stdout(),
        error: None,
    };
    let ended = File::open(rt, name).and_then(|mut file| Ok(files::run_all(&mut file, &mut to)?));
    if let Err(e) = ended {
        files::fail(rt, name, to.last(e));
    }
}
