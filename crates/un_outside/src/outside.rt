//! The outside: where bytes come from and where they go to.

ghost use Rattle.std.specs.Prelude.{◌≡◌, ℕ, Bool, true, false, ◌⊎◌, ◌+◌, ◌<◌, ◌≤◌, min, List, Option, None, IfSome, IfOk, IsErr, OnErr};
ghost use Rattle.std.specs.Prelude.{length};
ghost use Rattle.std.specs.Io.{ReadsAtMost, WritesAtMost};
ghost use Rattle.std.specs.Io.KnownBytes.{ReadConsumes, WriteAppends};
ghost use Rattle.un_outside.specs.Causes.{HasCause, HasWriteCause};

/// The outside has failed. Its count of faults says so too.
#[derive(Clone, Copy, PartialEq)]
pub struct Failed;

/// Where bytes come from. Contracts see the bytes that are left, where it tells them, a count of faults that never
/// falls and rises exactly where a call fails, and a count of its calls.
pub trait Source {
    /// The bytes that are left, where it tells them.
    ghost left: { Self → Option (List ℕ) };

    /// How often it has failed.
    ghost faults: { Self → ℕ };

    /// How often it was called. An implementation that does not count gives 0.
    ghost calls: { Self → ℕ };

    /// Moves a prefix of what is left into the front of `buf` and answers its length. An answer 0 on a buffer that is
    /// not empty comes exactly at the end of the bytes, where they are told.
    ///
    /// # Errors
    /// `Failed` exactly where the count of faults rose; then nothing was taken.
    fn read(&mut self, buf: &mut [u8]) -> Result<usize, Failed>
        ensures bound { ReadsAtMost result buf.new }
        ensures bytes { ReadConsumes (left self.old) (left self.new) result buf.new }
        ensures cause { HasCause (faults self.old) (faults self.new) result }
        ensures call { calls self.new ≤ calls self.old + 1 };
}

/// Where bytes go to. Contracts see the bytes that it holds, where it tells them, a count of faults that never falls
/// and rises exactly where a call fails or takes nothing of a piece that is not empty, and a count of its calls.
pub trait Sink {
    /// The bytes that it holds, where it tells them.
    ghost held: { Self → Option (List ℕ) };

    /// How often it has failed.
    ghost faults: { Self → ℕ };

    /// How often it was called. An implementation that does not count gives 0.
    ghost calls: { Self → ℕ };

    /// How many bytes a call takes of as many or more, where it tells. It takes fewer only where it is full then.
    ghost piece: { Self → Option ℕ } = { λ _. None };

    /// Whether each call with bytes fails from now on.
    ghost is_full: { Self → Bool } = { λ _. false };

    /// Appends a prefix of `bytes` and answers its length. An answer 0 on a piece that is not empty comes only where
    /// the count of faults rose.
    ///
    /// # Errors
    /// `Failed` only where the count of faults rose; then nothing was appended.
    fn write(&mut self, bytes: &[u8]) -> Result<usize, Failed>
        ensures bound { WritesAtMost result bytes.now }
        ensures bytes { WriteAppends (held self.old) (held self.new) result bytes.now }
        ensures cause { HasWriteCause (faults self.old) (faults self.new) result (length bytes.now) }
        ensures call { calls self.new ≤ calls self.old + 1 }
        ensures paced { IfSome (piece self.old) (λ p. IfOk result (λ n. (min (length bytes.now) p ≤ n) ⊎ (is_full self.new ≡ true))) }
        ensures same_piece { piece self.new ≡ piece self.old }
        ensures full { is_full self.old ≡ true → 0 < length bytes.now → IsErr result };
}
