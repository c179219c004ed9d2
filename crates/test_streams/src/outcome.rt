//! What the program makes of a script.
use std::alloc::Global;
use std::io;
use std::io::{ErrorKind, Read, Write};
use std::process::Abort;
use std::test::Fail;
use tbr_runner::run;
use tbr_script::{RunError, StdSink, StdSource};

/// A writer that takes this many bytes a call, and fails once its calls are used up.
#[derive(Drop)]
pub struct Slow {
    held: Vec<u8>,
    bytes_a_call: usize,
    calls: usize,
}

impl Slow {
    /// A writer that takes this many bytes a call, and fails after this many calls.
    pub fn new(alloc: Global, bytes_a_call: usize, calls: usize) -> Slow {
        Slow {
            held: Vec::new(alloc),
            bytes_a_call,
            calls,
        }
    }
}

impl Write for Slow {
    fn write(&mut self, buf: &[u8]) -> io::Result<usize> {
        if self.calls == 0 {
            return Err(io::Error::from(ErrorKind::BrokenPipe));
        }
        self.calls -= 1;
        let count = buf.len().min(self.bytes_a_call);
        self.held.extend_from_slice(&buf[..count])?;
        Ok(count)
    }

    fn flush(&mut self) -> io::Result<()> {
        Ok(())
    }
}

/// How the program ends over a reader and a writer, and what the writer holds then.
fn ended(alloc: Global, reader: impl Read + Drop, writer: Slow) -> (Result<(), RunError>, Vec<u8>) {
    let mut source = StdSource::new(reader);
    let mut sink = StdSink::new(writer);
    let ended = run(alloc, &mut source, &mut sink);
    (ended, sink.into_inner().held)
}

/// The status of a refusal and its line.
fn told_of(alloc: Global, e: RunError) -> Result<String, Fail> {
    let mut line = StdSink::new(Vec::new(alloc));
    e.report(&mut line)?;
    let line = String::from_utf8(line.into_inner())?;
    let status = e.status();
    Ok(format!(in alloc; "{status}: {line}")?)
}

/// What is written and, after it, the status and line of a refusal.
pub fn outcome(alloc: Global, reader: impl Read + Drop, writer: Slow) -> Result<String, Fail> {
    let (ended, held) = ended(alloc, reader, writer);
    let mut told = String::from_utf8(held)?;
    if let Err(e) = ended {
        told.push_str(told_of(alloc, e)?.as_str())?;
    }
    Ok(told)
}

/// The script of that name ends as is expected.
pub fn tells(
    rt: &impl Abort,
    alloc: Global,
    name: &str,
    reader: impl Read + Drop,
    writer: Slow,
    expected: &str,
) -> Result<(), Fail> {
    let told = outcome(alloc, reader, writer)?;
    assert_eq!(rt; told.as_str(), expected, "{name}");
    Ok(())
}
