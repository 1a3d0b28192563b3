//! Sources of bytes, and the loop that reads one to its end.
ghost use Rattle.std.specs.Prelude.{◌≡◌, ℕ, ◌+◌, ◌-◌, ◌^◌, ◌<◌, ◌≤◌, ◌↔◌, List, length, take, drop, min, Option, Some, IfOk, OnErr, IsOk, IsErr, IsErrOf, Contains, is_err, if◌then◌else◌, [], ◌++◌};
ghost use Rattle.std.specs.Io.KnownBytes.{Consumes, IsAtEnd, Keeps};
ghost use Rattle.race_io.specs.Counts.{Rose};
ghost use Rattle.race_io.specs.Transfer.{TakesAll, TakesSome};
ghost use Rattle.race_io.specs.Memory.{one_more};

use crate::{Bytes, Failed};
use std::alloc::Global;
use std::io::Read;
use std::marker::Model;
use thiserror::Error;

/// Where bytes are taken from.
pub trait Source {
    // The bytes left, where the source tells them.
    ghost left: { Self → Option (List ℕ) };

    // How many faults there were.
    ghost faults: { Self → ℕ };

    /// Takes bytes from the front of those left into the front of `into`, which is not empty, and answers
    /// how many. It answers 0 at the end of input and only there. It answers Failed only where the count of
    /// faults rose, and then the bytes left stay as they were. The count never falls.
    fn take(&mut self, into: &mut [u8]) -> Result<usize, Failed>
        requires { 0 < length into.old }
        ensures most { IfOk result (λ n. n ≤ length into.new) }
        ensures front { IfOk result (λ n. Consumes (left self.old) (left self.new) (take n into.new)) }
        ensures end { IfOk result (λ n. n ≡ 0 → IsAtEnd (left self.new)) }
        ensures kept { OnErr result (Keeps (left self.old) (left self.new)) }
        ensures counted { faults self.old ≤ faults self.new }
        ensures failed { OnErr result (Rose (faults self.old) (faults self.new)) };
}

/// Why reading to the end of input stopped.
#[derive(Clone, Copy, Debug, PartialEq, Eq, Error)]
pub enum TakeFault {
    /// The source failed.
    #[error("the source failed")]
    Failed,
    /// There was no memory for the bytes.
    #[error("out of memory")]
    OutOfMemory,
}

// How many bytes are asked for at once.
const PIECE: usize = 65536;

/// Reads to the end of input, or until `limit` bytes, at least 1, were taken. It answers `Failed` only where
/// the source's count of faults rose in this call. Where it answers an error, the bytes that were taken by
/// then are lost, and the source has left what stands behind them. Each turn of its loop takes at least one
/// byte or ends it.
pub fn take_all<S: Source>(alloc: Global, source: &mut S, limit: u64) -> Result<Bytes, TakeFault>
    requires { 1 ≤ limit }
    ensures taken { IfOk result (λ bytes. TakesAll (S.left source.old) (S.left source.new) limit bytes.items) }
    ensures stopped { OnErr result (TakesSome (S.left source.old) (S.left source.new) limit) }
    ensures counted { S.faults source.old ≤ S.faults source.new }
    ensures failed { IsErrOf result TakeFault.Failed → Rose (S.faults source.old) (S.faults source.new) }
{
    match vec![in alloc; 0u8; PIECE] {
        Ok(mut piece) => take_pieces(alloc, source, limit, &mut piece),
        Err(_) => Err(TakeFault::OutOfMemory),
    }
}

// `take_all`, a piece at a time.
fn take_pieces<S: Source>(
    alloc: Global,
    source: &mut S,
    limit: u64,
    piece: &mut [u8],
) -> Result<Bytes, TakeFault>
    requires { 0 < length piece.old }
    ensures taken { IfOk result (λ bytes. TakesAll (S.left source.old) (S.left source.new) limit bytes.items) }
    ensures stopped { OnErr result (TakesSome (S.left source.old) (S.left source.new) limit) }
    ensures counted { S.faults source.old ≤ S.faults source.new }
    ensures failed { IsErrOf result TakeFault.Failed → Rose (S.faults source.old) (S.faults source.new) }
{
    let mut bytes = Bytes::new(alloc);
    while (bytes.len() as u64) < limit {
        let wanted = (limit - bytes.len() as u64).min(piece.len() as u64) as usize;
        let count = match source.take(&mut piece[..wanted]) {
            Ok(0) => return Ok(bytes),
            Ok(count) => count,
            Err(_) => return Err(TakeFault::Failed),
        };
        if bytes.append(&piece[..count]).is_err() {
            return Err(TakeFault::OutOfMemory);
        }
    }
    Ok(bytes)
}

/// A source over the bytes of a slice, some of whose calls fail: those whose numbers, counted from 1, are
/// listed. A call that fails takes nothing.
#[derive(Debug, Drop)]
pub struct MemorySource<'a> {
    rest: &'a [u8],
    fails: &'a [u64],
    calls: u64,
    faults: u64,
}

impl<'a> Model for MemorySource<'a> {
    ghost use Rattle.race_io.specs.Memory.{Supply};

    ghost Value = { Supply };

    ghost view = { λ s. record { left = s.rest.now; fails = s.fails.now; calls = s.calls; faults = s.faults } };
}

impl<'a> MemorySource<'a> {
    /// The source of `bytes`, before its first call; the calls whose numbers are in `fails` will fail.
    pub fn new(bytes: &'a [u8], fails: &'a [u64]) -> MemorySource<'a>
        ensures { result ≡ record { left = bytes.now; fails = fails.now; calls = 0; faults = 0 } }
    {
        MemorySource {
            rest: bytes,
            fails,
            calls: 0,
            faults: 0,
        }
    }
}

impl Source for MemorySource<'_> {
    ghost left = { λ s. Some s.left };

    ghost faults = { λ s. s.faults };

    /// Takes as many bytes as are left and fit, where this call is not one of those that fail.
    fn take(&mut self, into: &mut [u8]) -> Result<usize, Failed>
        requires { 0 < length into.old }
        ensures most { IfOk result (λ n. n ≤ length into.new) }
        ensures front { IfOk result (λ n. Consumes (Some self.old.left) (Some self.new.left) (take n into.new)) }
        ensures end { IfOk result (λ n. n ≡ 0 → IsAtEnd (Some self.new.left)) }
        ensures kept { OnErr result (Keeps (Some self.old.left) (Some self.new.left)) }
        ensures counted { self.old.faults ≤ self.new.faults }
        ensures failed { OnErr result (Rose self.old.faults self.new.faults) }
        ensures all_that_fit { IfOk result (λ n. n ≡ min (length into.new) (length self.old.left)) }
        ensures calls { self.new.calls ≡ one_more self.old.calls }
        ensures listed { IsErr result ↔ Contains self.old.fails (one_more self.old.calls) }
        ensures fails { self.new.fails ≡ self.old.fails }
        ensures faults { self.new.faults ≡ (if is_err result then one_more self.old.faults else self.old.faults) }
    {
        self.calls = self.calls.saturating_add(1);
        if self.fails.contains(&self.calls) {
            self.faults = self.faults.saturating_add(1);
            return Err(Failed);
        }
        Ok(take_front(&mut self.rest, into))
    }
}

// Moves the bytes at the front of `rest` to the front of `into`, as many as fit.
fn take_front(rest: &mut &[u8], into: &mut [u8]) -> usize
    ensures most { result ≡ min (length into.new) (length rest.old.now) }
    ensures front { rest.old.now ≡ take result into.new ++ rest.new.now }
    ensures end { 0 < length into.new → result ≡ 0 → rest.new.now ≡ [] }
{
    let count = into.len().min(rest.len());
    let (front, back) = rest.split_at(count);
    into[..count].copy_from_slice(front);
    *rest = back;
    count
}

/// A source over the bytes of a slice that never fails: its count of faults is always 0.
#[derive(Debug, Drop)]
pub struct CleanSource<'a> {
    rest: &'a [u8],
}

impl<'a> Model for CleanSource<'a> {
    ghost Value = { List ℕ };

    ghost view = { λ s. s.rest.now };
}

impl<'a> CleanSource<'a> {
    /// The source of `bytes`.
    pub fn new(bytes: &'a [u8]) -> CleanSource<'a>
        ensures { result ≡ bytes.now }
    {
        CleanSource { rest: bytes }
    }
}

impl Source for CleanSource<'_> {
    ghost left = { λ s. Some s };

    ghost faults = { λ _. 0 };

    /// Takes as many bytes as are left and fit.
    fn take(&mut self, into: &mut [u8]) -> Result<usize, Failed>
        requires { 0 < length into.old }
        ensures most { IfOk result (λ n. n ≤ length into.new) }
        ensures front { IfOk result (λ n. Consumes (Some self.old) (Some self.new) (take n into.new)) }
        ensures end { IfOk result (λ n. n ≡ 0 → IsAtEnd (Some self.new)) }
        ensures kept { OnErr result (Keeps (Some self.old) (Some self.new)) }
        ensures counted { 0 ≤ 0 }
        ensures failed { OnErr result (Rose 0 0) }
        ensures never_fails { IsOk result }
        ensures all_that_fit { IfOk result (λ n. n ≡ min (length into.new) (length self.old)) }
    {
        Ok(take_front(&mut self.rest, into))
    }
}

/// A reader as a source. Each error of the reader raises the count of faults. It tells what its reader tells.
#[derive(Debug, Drop)]
pub struct ReaderSource<R> {
    reader: R,
    faults: u64,
}

impl<R: Read> ReaderSource<R> {
    ghost use Rattle.race_io.specs.declared.reading.ReaderSource.{ReaderSource};

    /// The source over `reader`, with no fault so far.
    pub fn new(reader: R) -> ReaderSource<R>
        ensures { result ≡ record { reader = reader; faults = 0 } }
    {
        ReaderSource { reader, faults: 0 }
    }
}

impl<R: Read> Source for ReaderSource<R> {
    ghost left = { λ s. R.remaining s.reader };

    ghost faults = { λ s. s.faults };

    fn take(&mut self, into: &mut [u8]) -> Result<usize, Failed> {
        match self.reader.read(into) {
            Ok(count) => Ok(count),
            Err(_) => {
                self.faults = self.faults.saturating_add(1);
                Err(Failed)
            }
        }
    }
}

#[cfg(test)]
mod tests {
    use super::*;
    use std::io;
    use std::test::Fail;

    // Gives two bytes, then fails, then gives one more, and then is at its end.
    #[derive(Drop)]
    struct Stutter {
        turn: u8,
    }

    impl Read for Stutter {
        fn read(&mut self, into: &mut [u8]) -> io::Result<usize> {
            self.turn = self.turn.saturating_add(1);
            let given: &[u8] = match self.turn {
                1 => b"ab",
                2 => return Err(io::Error::other("a fault in mid-stream")),
                3 => b"c",
                _ => b"",
            };
            let count = given.len().min(into.len());
            into[..count].copy_from_slice(&given[..count]);
            Ok(count)
        }
    }

    #[test]
    fn reader_that_fails_in_mid_stream(rt: HostRuntime) -> Result<(), Fail> {
        let mut source = ReaderSource::new(Stutter { turn: 0 });
        let first = take_all(rt.alloc(), &mut source, 10);
        assert!(rt; matches!(first, Err(TakeFault::Failed)));
        assert_eq!(rt; source.faults, 1);
        let second = take_all(rt.alloc(), &mut source, 10)?;
        assert_eq!(rt; second.as_slice(), b"c".as_slice());
        assert_eq!(rt; source.faults, 1);
        Ok(())
    }

    #[test]
    fn memory_sources(rt: HostRuntime) -> Result<(), Fail> {
        let none: &[u64] = &[];
        let first: &[u64] = &[1];
        let second: &[u64] = &[2];
        for (fails, limit, taken) in [
            (none, 10, Some(b"abcdef".as_slice())),
            (none, 6, Some(b"abcdef".as_slice())),
            (none, 4, Some(b"abcd".as_slice())),
            (first, 10, None),
            (second, 10, None),
        ] {
            let mut source = MemorySource::new(b"abcdef", fails);
            match take_all(rt.alloc(), &mut source, limit) {
                Ok(bytes) => assert_eq!(rt; Some(bytes.as_slice()), taken),
                Err(fault) => assert!(rt; taken.is_none() && fault == TakeFault::Failed),
            }
        }
        let mut clean = CleanSource::new(b"abcdef");
        let bytes = take_all(rt.alloc(), &mut clean, 10)?;
        assert_eq!(rt; bytes.as_slice(), b"abcdef".as_slice());
        Ok(())
    }
}
