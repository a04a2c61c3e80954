//! The outside over std's readers and writers: the trusted edge. They tell the bytes where the reader or writer does.

ghost use Rattle.std.specs.Prelude.{◌≡◌, ℕ, ◌<◌, Ok, Err, IsErr};
ghost use Rattle.un_outside.specs.Causes.{HasCause, HasWriteCause};

use crate::outside::{Failed, Sink, Source};
use std::io;
use std::io::{Read, Write};

/// What a reader answered, as a source answers it: its error is a failure, and the count rises there alone.
fn read_answer(answer: io::Result<usize>, faults: &mut u64) -> Result<usize, Failed>
    ensures given { (n : ℕ) → answer ≡ Ok n → result ≡ Ok n }
    ensures failed { IsErr answer → IsErr result }
    ensures cause { HasCause faults.old faults.new result }
{
    match answer {
        Ok(count) => Ok(count),
        Err(_) => {
            *faults = faults.saturating_add(1);
            Err(Failed)
        }
    }
}

/// What a writer answered to so many bytes, as a sink answers it: its error is a failure, and the count rises there and
/// where it took nothing of some bytes.
fn write_answer(
    answer: io::Result<usize>,
    offered: usize,
    faults: &mut u64,
) -> Result<usize, Failed>
    ensures taken { (n : ℕ) → answer ≡ Ok n → result ≡ Ok n }
    ensures failed { IsErr answer → IsErr result }
    ensures cause { HasWriteCause faults.old faults.new result offered }
{
    match answer {
        Ok(count) => {
            if count == 0 && offered > 0 {
                *faults = faults.saturating_add(1);
            }
            Ok(count)
        }
        Err(_) => {
            *faults = faults.saturating_add(1);
            Err(Failed)
        }
    }
}

/// A source over a reader of std. Each error of the reader is a fault; an answer of no bytes is the end.
#[derive(Drop)]
pub struct StdSource<R: Read> {
    reader: R,
    faults: u64,
}

impl<R: Read> StdSource<R> {
    /// The source over `reader`, which has not failed yet.
    pub fn new(reader: R) -> StdSource<R>
        ensures left { ⟦<StdSource<R> as Source>⟧.left result ≡ R.remaining reader }
        ensures faults { ⟦<StdSource<R> as Source>⟧.faults result ≡ 0 }
    {
        StdSource { reader, faults: 0 }
    }
}

impl<R: Read> Source for StdSource<R> {
    ghost left = { λ s. R.remaining s.reader };

    ghost faults = { λ s. s.faults };

    ghost calls = { λ s. 0 };

    fn read(&mut self, buf: &mut [u8]) -> Result<usize, Failed> {
        let answer = self.reader.read(buf);
        read_answer(answer, &mut self.faults)
    }
}

/// A sink over a writer of std. Each error of the writer is a fault, and so is a piece of which it takes nothing.
#[derive(Drop)]
pub struct StdSink<W: Write> {
    writer: W,
    faults: u64,
}

impl<W: Write> StdSink<W> {
    /// The sink over `writer`, which has not failed yet.
    pub fn new(writer: W) -> StdSink<W>
        ensures held { ⟦<StdSink<W> as Sink>⟧.held result ≡ W.contents writer }
        ensures faults { ⟦<StdSink<W> as Sink>⟧.faults result ≡ 0 }
    {
        StdSink { writer, faults: 0 }
    }
}

impl<W: Write> Sink for StdSink<W> {
    ghost held = { λ s. W.contents s.writer };

    ghost faults = { λ s. s.faults };

    ghost calls = { λ s. 0 };

    fn write(&mut self, bytes: &[u8]) -> Result<usize, Failed> {
        let answer = self.writer.write(bytes);
        write_answer(answer, bytes.len(), &mut self.faults)
    }
}
