//! Whole transfers: all the bytes of a source, and all of a text to a sink.

ghost use Rattle.std.specs.Prelude.{◌≡◌, ◌≢◌, ℕ, ◌+◌, ◌<◌, ◌≤◌, ◌++◌, List, length, IfSome, IfOk, OnOk, OnErr};
ghost use Rattle.std.specs.Io.KnownBytes.{Consumes, Appends, IsAtEnd};
ghost use Rattle.un_outside.specs.Causes.{Rose, AppendsPrefix};
ghost use Rattle.un_outside.specs.Pace.{IsCallForEach};

use crate::outside::{Failed, Sink, Source};
use std::alloc::{AllocError, Global};

/// Why not all bytes of a source were read.
#[derive(Clone, Copy, Debug, PartialEq)]
pub enum ReadAll {
    /// The source has failed.
    ReadFault,
    /// There were more bytes than asked for.
    TooLong,
    /// There was no memory for the bytes.
    NoMemory,
}

impl From<AllocError> for ReadAll {
    ghost use Rattle.std.specs.Prelude.{◌≡◌};
    ghost use Rattle.un_outside.specs.declared.transfer.ReadAll.TheVariants.{NoMemory};

    ghost from_gives = { λ _ error. error ≡ NoMemory };

    fn from(_error: AllocError) -> ReadAll {
        ReadAll::NoMemory
    }
}

impl From<Failed> for ReadAll {
    ghost use Rattle.std.specs.Prelude.{◌≡◌};
    ghost use Rattle.un_outside.specs.declared.transfer.ReadAll.TheVariants.{ReadFault};

    ghost from_gives = { λ _ error. error ≡ ReadFault };

    fn from(_error: Failed) -> ReadAll {
        ReadAll::ReadFault
    }
}

/// How many bytes one call of a source asks for at most.
const CHUNK: usize = 4096;

/// Reads at most `room` bytes more, and answers how many. 0 is the end.
fn read_more<S: Source>(src: &mut S, bytes: &mut Vec<u8>, room: usize) -> Result<usize, ReadAll>
    requires { 0 < room }
    ensures later { S.faults src.old ≤ S.faults src.new }
    ensures quiet { result ≢ Err ReadAll.ReadFault → S.faults src.new ≡ S.faults src.old }
    ensures call { S.calls src.new ≤ S.calls src.old + 1 }
    ensures fault { result ≡ Err ReadAll.ReadFault → Rose (S.faults src.old) (S.faults src.new) }
    ensures not_long { result ≡ Err ReadAll.TooLong → ⊥ }
    ensures ok { IfOk result (λ n. (more : List ℕ) × (bytes.new.items ≡ bytes.old.items ++ more)
        × (length more ≡ n) × (n ≤ room) × Consumes (S.left src.old) (S.left src.new) more) }
    ensures end { result ≡ Ok 0 → IsAtEnd (S.left src.new) }
    ensures err { OnErr result ((more : List ℕ) × Consumes (S.left src.old) (S.left src.new) more) }
{
    let mut chunk = [0u8; CHUNK];
    let front = &mut chunk[..room.min(CHUNK)];
    let count = src.read(front)?;
    bytes.extend_from_slice(&front[..count])?;
    Ok(count)
}

/// Reads all bytes to the end, where there are at most `max`. It calls the source at most `max + 2` times.
///
/// # Errors
/// - `ReadFault` exactly where the source's count of faults rose.
/// - `TooLong` exactly where more than `max` bytes came. Then `max + 1` were taken from the source.
/// - `NoMemory` where there was no memory for the bytes.
///
/// After each of them the source has given what was read.
pub fn read_all<S: Source>(alloc: Global, src: &mut S, max: usize) -> Result<Vec<u8>, ReadAll>
    ensures later { S.faults src.old ≤ S.faults src.new }
    ensures quiet { result ≢ Err ReadAll.ReadFault → S.faults src.new ≡ S.faults src.old }
    ensures calls { S.calls src.new ≤ S.calls src.old + (max + 2) }
    ensures fault { result ≡ Err ReadAll.ReadFault → Rose (S.faults src.old) (S.faults src.new) }
    ensures all { IfOk result (λ v. Consumes (S.left src.old) (S.left src.new) v.items
        × IsAtEnd (S.left src.new)) }
    ensures told { IfOk result (λ v. IfSome (S.left src.old) (λ bs. v.items ≡ bs)) }
    ensures short { IfOk result (λ v. length v.items ≤ max) }
    ensures long { result ≡ Err ReadAll.TooLong → (taken : List ℕ) × (length taken ≡ max + 1)
        × Consumes (S.left src.old) (S.left src.new) taken }
    ensures too_long { result ≡ Err ReadAll.TooLong → IfSome (S.left src.old) (λ bs. max < length bs) }
    ensures err { OnErr result ((taken : List ℕ) × Consumes (S.left src.old) (S.left src.new) taken) }
{
    let mut bytes = Vec::new(alloc);
    while bytes.len() <= max {
        let room = (max - bytes.len()).saturating_add(1);
        let count = read_more(src, &mut bytes, room)?;
        if count == 0 {
            return Ok(bytes);
        }
    }
    Err(ReadAll::TooLong)
}

/// Writes all bytes. It offers the whole rest at each call: so it calls the sink at most as often as there are bytes,
/// and at most once for each piece of a sink that tells its piece. It takes no memory.
///
/// # Errors
/// `Failed` exactly where the sink's count of faults rose. Then the sink holds a prefix of the bytes more.
pub fn write_all<K: Sink>(sink: &mut K, bytes: &[u8]) -> Result<(), Failed>
    ensures later { K.faults sink.old ≤ K.faults sink.new }
    ensures quiet { OnOk result (K.faults sink.new ≡ K.faults sink.old) }
    ensures calls { K.calls sink.new ≤ K.calls sink.old + length bytes.now }
    ensures whole_rest { OnOk result (IfSome (K.piece sink.old) (λ p. IsCallForEach p (length bytes.now) (K.calls sink.old)
        (K.calls sink.new))) }
    ensures all { OnOk result (Appends (K.held sink.old) (K.held sink.new) bytes.now) }
    ensures failed { OnErr result (Rose (K.faults sink.old) (K.faults sink.new)) }
    ensures prefix { OnErr result (AppendsPrefix (K.held sink.old) (K.held sink.new) bytes.now) }
{
    let mut at = 0;
    while at < bytes.len() {
        match sink.write(&bytes[at..]) {
            Ok(0) => return Err(Failed),
            Ok(count) => at += count,
            Err(failed) => return Err(failed),
        }
    }
    Ok(())
}
