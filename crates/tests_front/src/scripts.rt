//! The adapters over readers and writers of std, which answer what those answer.

ghost use Rattle.std.specs.Prelude.{◌≤◌, IfOk};

use std::io;
use std::io::{ErrorKind, Read, Write};
use un_base::memory_error::NoMemory;
use un_ir::text::{put_number, put_text};
use un_outside::files::{StdSink, StdSource};
use un_outside::outside::{Sink, Source};
use un_outside::transfer::write_all;

/// A reader and a writer whose calls answer in turn: so many bytes where they fit, or an error.
#[derive(Drop)]
struct Scripted<'a> {
    script: &'a [u8],
    at: usize,
}

impl Scripted<'_> {
    /// What the next call answers, of at most `room` bytes: an error at `x`, 5000 at `m`, 16384 at `n`, else the digit. After the last
    /// answer it is 0.
    fn next(&mut self, room: usize) -> io::Result<usize>
        ensures { IfOk result (λ n. n ≤ room) }
    {
        let answer = self.script.get(self.at).copied();
        self.at = self.at.saturating_add(1);
        match answer {
            Some(b'x') => Err(io::Error::from(ErrorKind::BrokenPipe)),
            Some(b'm') => Ok(room.min(5000)),
            Some(b'n') => Ok(room.min(16384)),
            Some(digit) => Ok(room.min(digit.saturating_sub(b'0') as usize)),
            None => Ok(0),
        }
    }
}

impl Read for Scripted<'_> {
    fn read(&mut self, buf: &mut [u8]) -> io::Result<usize> {
        self.next(buf.len())
    }
}

impl Write for Scripted<'_> {
    fn write(&mut self, buf: &[u8]) -> io::Result<usize> {
        self.next(buf.len())
    }

    fn flush(&mut self) -> io::Result<()> {
        Ok(())
    }
}

/// Appends what a call answers.
fn put_count(out: &mut Vec<u8>, answer: Option<usize>) -> Result<(), NoMemory> {
    match answer {
        Some(n) => put_number(out, n as u64)?,
        None => put_text(out, b"x")?,
    }
    put_text(out, b" ")
}

/// Appends what the calls of a source and of a sink over a script answer.
pub(crate) fn put_scripted(out: &mut Vec<u8>, script: &[u8]) -> Result<(), NoMemory> {
    let mut buf = [0u8; 16384];
    let mut source = StdSource::new(Scripted { script, at: 0 });
    for _ in script {
        put_count(out, source.read(&mut buf).ok())?;
    }
    put_text(out, b"/")?;
    let mut sink = StdSink::new(Scripted { script, at: 0 });
    for _ in script {
        put_count(out, sink.write(&buf).ok())?;
    }
    Ok(())
}

/// Appends whether `write_all` writes the whole of a text over a script, which answers so many calls alone.
pub(crate) fn put_offered(out: &mut Vec<u8>, text: &[u8], script: &[u8]) -> Result<(), NoMemory> {
    let mut sink = StdSink::new(Scripted { script, at: 0 });
    match write_all(&mut sink, text) {
        Ok(()) => put_text(out, b"whole"),
        Err(_) => put_text(out, b"failed"),
    }
}
