//! The program: the words that it is given, the folder that it runs in and the standard streams, and the top call.
#![tactic(auto)]

mod words;

use edge_io::standard::{StdFolder, StdSink};
use retos_cli::outcome::{Outcome, Stop};
use retos_cli::report::report;
use retos_cli::top::retos;
use std::fs::File;
use std::process::ExitCode;

/// A file that has nothing to read.
const NULL_DEVICE: &str = "/dev/null";

fn main(rt: HostRuntime) -> ExitCode {
    let _streams = kept_streams(&rt);
    let status = match words::given(&rt) {
        Ok(words) => {
            let mut files = StdFolder::new(rt);
            let mut out = StdSink::new(rt.stdout());
            let mut err = StdSink::new(rt.stderr());
            retos(rt.alloc(), &words, &mut files, &mut out, &mut err)
        }
        Err(_) => {
            let mut err = StdSink::new(rt.stderr());
            report(&Outcome::Stopped(Stop::NoMemory), &mut err)
        }
    };
    ExitCode::from(status.number())
}

/// Files in the places of those standard streams that are closed, so that no file that is opened later gets such a place and is
/// written to in the stream's stead. They are opened to be read alone: a write to such a stream fails. A system gives a new file
/// the lowest free place, so three are enough; they stay open as long as they are kept.
fn kept_streams(rt: &HostRuntime) -> [Option<File>; 3] {
    let input = File::open(rt, NULL_DEVICE).ok();
    let out = File::open(rt, NULL_DEVICE).ok();
    let err = File::open(rt, NULL_DEVICE).ok();
    [input, out, err]
}
