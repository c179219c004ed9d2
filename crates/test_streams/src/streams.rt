//! Scripts that aren't text, and streams that fail.
use crate::outcome::{Slow, outcome, tells};
use std::alloc::Global;
use std::io;
use std::io::{ErrorKind, Read};
use std::process::Abort;
use std::test::Fail;

/// A reader that has these bytes, gives this many of them a call, and fails after them.
#[derive(Drop)]
struct Cut<'a> {
    bytes: &'a [u8],
    bytes_a_call: usize,
}

impl<'a> Read for Cut<'a> {
    fn read(&mut self, buf: &mut [u8]) -> io::Result<usize> {
        if self.bytes.is_empty() {
            return Err(io::Error::from(ErrorKind::BrokenPipe));
        }
        let count = buf.len().min(self.bytes_a_call);
        self.bytes.read(&mut buf[..count])
    }
}

/// A script, how many bytes the writer takes a call, after how many calls it fails, and what is expected of the
/// program.
struct Example {
    name: &'static str,
    script: &'static [u8],
    bytes_a_call: usize,
    calls: usize,
    told: &'static str,
}

const SCRIPT: &[u8] = b"new 8 plain\ntext Hello, world.  Superlongwordreally\n";

const EXAMPLES: &[Example] = &[
    Example {
        name: "a line that isn't UTF-8",
        script: b"new 5 plain\ntext \xff\n",
        bytes_a_call: usize::MAX,
        calls: usize::MAX,
        told: "2: line 2: not a command\n",
    },
    Example {
        name: "a writer that fails at once",
        script: SCRIPT,
        bytes_a_call: usize::MAX,
        calls: 0,
        told: "3: write failed\n",
    },
    Example {
        name: "a writer that fails after six bytes",
        script: SCRIPT,
        bytes_a_call: 3,
        calls: 2,
        told: "Hello,3: write failed\n",
    },
    Example {
        name: "a writer that takes nothing",
        script: SCRIPT,
        bytes_a_call: 0,
        calls: usize::MAX,
        told: "3: write failed\n",
    },
];

#[test]
fn failing_streams_are_told(rt: HostRuntime) -> Result<(), Fail> {
    let alloc = rt.alloc();
    for example in EXAMPLES {
        let writer = Slow::new(alloc, example.bytes_a_call, example.calls);
        tells(
            &rt,
            alloc,
            example.name,
            example.script,
            writer,
            example.told,
        )?;
    }
    Ok(())
}

const TEXT: &[u8] = b"Hello,\nworld.\nSuperlon\ngwordrea\nlly\n";

/// What a writer holds that takes three bytes a call and fails after this many calls.
fn told_after(alloc: Global, calls: usize) -> Result<Vec<u8>, Fail> {
    let mut told = Vec::new(alloc);
    for byte in TEXT.iter().take(calls.saturating_mul(3)) {
        told.push(*byte)?;
    }
    if told.len() < TEXT.len() {
        told.extend_from_slice(b"3: write failed\n")?;
    }
    Ok(told)
}

/// Wherever the writer fails, it has a beginning of the text and no more.
fn writers_fail(rt: &impl Abort, alloc: Global) -> Result<(), Fail> {
    for calls in 0..TEXT.len() {
        let told = outcome(alloc, SCRIPT, Slow::new(alloc, 3, calls))?;
        let expected = told_after(alloc, calls)?;
        assert!(rt;
            told.as_bytes() == expected.as_slice(),
            "after {calls} calls"
        );
    }
    Ok(())
}

/// Nothing is written, wherever the reader fails.
fn readers_fail(rt: &impl Abort, alloc: Global) -> Result<(), Fail> {
    for length in 0..SCRIPT.len() + 1 {
        let reader = Cut {
            bytes: &SCRIPT[..length],
            bytes_a_call: 3,
        };
        let told = outcome(alloc, reader, Slow::new(alloc, usize::MAX, usize::MAX))?;
        assert!(rt; told.as_str() == "3: read failed\n", "after {length} bytes");
    }
    Ok(())
}

#[test]
fn streams_that_fail_anywhere_are_told(rt: HostRuntime) -> Result<(), Fail> {
    writers_fail(&rt, rt.alloc())?;
    readers_fail(&rt, rt.alloc())
}

/// A collapsing row, whose first cell has a row in it.
const NESTED: &str =
    "new 5 plain\nborder\ncell 3 1\nborder\ncell 1 1\ntext 1\nendcell\ncell 1 1\ntext 2\nendcell\nrow\nendcell\ncell 1 1\ntext xy\nendcell\nrow collapse";

/// A text, or the refusal of a line that isn't a command, with nothing before it.
fn is_text_or_no_command(told: &str) -> bool {
    !told.contains(": ") || told.starts_with("2: line ") && told.ends_with(": not a command\n")
}

#[test]
fn a_script_that_is_cut_tells_a_text_or_no_command(rt: HostRuntime) -> Result<(), Fail> {
    let alloc = rt.alloc();
    for length in 0..NESTED.len() {
        let writer = Slow::new(alloc, usize::MAX, usize::MAX);
        let told = outcome(alloc, &NESTED.as_bytes()[..length], writer)?;
        assert!(rt;
            is_text_or_no_command(told.as_str()),
            "after {length} bytes"
        );
    }
    Ok(())
}
