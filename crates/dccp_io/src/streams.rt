//! Where bytes come from and where they go, as contracts see it.
//!
//! If a stream's bytes are not known, they are not known after a call either: the clauses are equations between
//! optional lists.
ghost use Rattle.std.specs.Prelude.{◌≡◌, ℕ, ◌<◌, ◌≤◌, ◌↔◌, List, [], length, take, Option, IfOk, OnErr, IfSome};
ghost use Rattle.std.specs.Io.KnownBytes.{prepend_known, append_known};
ghost use Rattle.dccp_io.specs.Counts.{Rose};

/// A read or a write failed (own).
#[derive(Clone, Copy, PartialEq, Eq)]
pub struct Failed;

/// Where bytes come from (own). Contracts see the bytes that a source has left, if these are known, and how often it
/// has failed.
pub trait Source {
    // The bytes that are left, if they are known.
    ghost left: { Self → Option (List ℕ) };
    // How often it has failed.
    ghost faults: { Self → ℕ };
    // The loan through which it reads, if it is one, so that an owner who lent a source recognizes it when it comes
    // back.
    ghost lender: { Self → ℕ } = { λ _. 0 };

    /// Reads the next bytes into the front of the slice and returns how many. Ok(0) is the end of the input; if the
    /// source's bytes are known, it comes exactly if none is left. Failed comes only if the count of faults rose in
    /// this call; then none of the known bytes was taken.
    fn read(&mut self, into: &mut [u8]) -> Result<usize, Failed>
        requires { 0 < length into.old }
        ensures fits { IfOk result (λ n. n ≤ length into.new) }
        ensures next { IfOk result (λ n. left self.old ≡ prepend_known (take n into.new) (left self.new)) }
        ensures end { IfOk result (λ n. IfSome (left self.old) (λ bytes. (n ≡ 0) ↔ (bytes ≡ []))) }
        ensures none_taken { OnErr result (left self.new ≡ left self.old) }
        ensures never_falls { faults self.old ≤ faults self.new }
        ensures cause { OnErr result (Rose (faults self.old) (faults self.new)) }
        ensures same_lender { lender self.new ≡ lender self.old };
}

/// Where bytes go (own). Contracts see the bytes that a sink has taken, if these are known, how often it has failed,
/// and how often it took none of a piece that was not empty.
pub trait Sink {
    // The bytes that were taken, if they are known.
    ghost taken: { Self → Option (List ℕ) };
    // How often it has failed.
    ghost faults: { Self → ℕ };
    // How often it took no byte of a piece that was not empty.
    ghost empty_takes: { Self → ℕ };

    /// Takes the first bytes of the piece and returns how many. It takes none of a piece that is not empty only if the
    /// count of empty takes rose in this call. Failed comes only if the count of faults rose in this call; then none of
    /// the known bytes was taken.
    fn write(&mut self, piece: &[u8]) -> Result<usize, Failed>
        ensures fits { IfOk result (λ n. n ≤ length piece.now) }
        ensures first { IfOk result (λ n. taken self.new ≡ append_known (taken self.old) (take n piece.now)) }
        ensures empty { IfOk result (λ n. n ≡ 0 → 0 < length piece.now → Rose (empty_takes self.old) (empty_takes self.new)) }
        ensures none_taken { OnErr result (taken self.new ≡ taken self.old) }
        ensures never_falls { faults self.old ≤ faults self.new }
        ensures takes_never_fall { empty_takes self.old ≤ empty_takes self.new }
        ensures cause { OnErr result (Rose (faults self.old) (faults self.new)) };
}

impl<S: Source> Source for &mut S {
    ghost left = { λ s. S.left s.now };

    ghost faults = { λ s. S.faults s.now };

    ghost lender = { λ s. s.ghost_name };

    fn read(&mut self, into: &mut [u8]) -> Result<usize, Failed> {
        Source::read(&mut **self, into)
    }
}

impl<K: Sink> Sink for &mut K {
    ghost taken = { λ s. K.taken s.now };

    ghost faults = { λ s. K.faults s.now };

    ghost empty_takes = { λ s. K.empty_takes s.now };

    fn write(&mut self, piece: &[u8]) -> Result<usize, Failed> {
        Sink::write(&mut **self, piece)
    }
}
