//! Renders the script on standard input as text on standard output. Arguments are ignored.
#![tactic(auto)]

use std::io;
use std::process::ExitCode;
use tbr_runner::run;
use tbr_script::{StdSink, StdSource};

fn main(rt: HostRuntime) -> ExitCode {
    let mut source = StdSource::new(rt.reader());
    let mut sink = StdSink::new(io::writer(&rt));
    match run(rt.alloc(), &mut source, &mut sink) {
        Ok(()) => ExitCode::SUCCESS,
        Err(e) => {
            let _ = e.report(&mut StdSink::new(rt.stderr()));
            ExitCode::from(e.status())
        }
    }
}
