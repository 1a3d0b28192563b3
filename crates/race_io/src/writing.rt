//! Sinks of bytes, and the loop that writes all bytes to one.
ghost use Rattle.std.specs.Prelude.{◌≡◌, ℕ, ◌+◌, ◌-◌, ◌^◌, ◌<◌, ◌≤◌, ◌↔◌, List, length, take, drop, min, Option, Some, None, IfOk, OnOk, OnErr, IsOk, IsErr, Contains, ◌⊎◌, [], is_err, if◌then◌else◌, Ok};
ghost use Rattle.std.specs.Io.KnownBytes.{Appends, Keeps};
ghost use Rattle.race_io.specs.Counts.{Rose};
ghost use Rattle.race_io.specs.Transfer.{AppendsPart};
ghost use Rattle.race_io.specs.Memory.{one_more};

use crate::Failed;
use std::io::Write;
use std::marker::Model;

/// Where bytes are put.
pub trait Sink {
    // The bytes taken, where the sink tells them.
    ghost taken: { Self → Option (List ℕ) };

    // How many faults there were.
    ghost faults: { Self → ℕ };

    /// Appends bytes from the front of `piece`, which is not empty, at least one of them, and answers how
    /// many. It answers Failed only where the count of faults rose, and then the bytes taken stay as they
    /// were. The count never falls.
    fn put(&mut self, piece: &[u8]) -> Result<usize, Failed>
        requires { 0 < length piece.now }
        ensures least { IfOk result (λ n. 1 ≤ n) }
        ensures most { IfOk result (λ n. n ≤ length piece.now) }
        ensures appended { IfOk result (λ n. Appends (taken self.old) (taken self.new) (take n piece.now)) }
        ensures kept { OnErr result (Keeps (taken self.old) (taken self.new)) }
        ensures counted { faults self.old ≤ faults self.new }
        ensures failed { OnErr result (Rose (faults self.old) (faults self.new)) };
}

/// Appends all bytes. It answers Failed only where the sink's count of faults rose in this call, and then a
/// part from the front of `bytes` was appended, and not all of it. Each turn of its loop writes at least one
/// byte or ends it.
pub fn put_all<K: Sink>(sink: &mut K, bytes: &[u8]) -> Result<(), Failed>
    ensures appended { OnOk result (Appends (K.taken sink.old) (K.taken sink.new) bytes.now) }
    ensures part { OnErr result (AppendsPart (K.taken sink.old) (K.taken sink.new) bytes.now) }
    ensures counted { K.faults sink.old ≤ K.faults sink.new }
    ensures failed { OnErr result (Rose (K.faults sink.old) (K.faults sink.new)) }
{
    let mut done = 0;
    while done < bytes.len() {
        done += sink.put(&bytes[done..])?;
    }
    Ok(())
}

/// A sink that writes over the bytes of a row, from the front, some of whose calls fail: those whose numbers,
/// counted from 1, are listed, and those that find no room left. A call that fails writes nothing.
#[derive(Debug, Drop)]
pub struct MemorySink<'a> {
    room: Vec<u8>,
    filled: usize,
    fails: &'a [u64],
    calls: u64,
    faults: u64,
}

impl<'a> Model for MemorySink<'a> {
    ghost use Rattle.std.specs.Prelude.{◌-◌, ◌≤◌, length, take};
    ghost use Rattle.race_io.specs.Memory.{Basin};

    ghost Value = { Basin };

    ghost view = { λ s. record { taken = take s.filled s.room.items; room = length s.room.items - s.filled; fails = s.fails.now; calls = s.calls; faults = s.faults } };

    ghost invariant = { λ s. s.filled ≤ length s.room.items };
}

impl<'a> MemorySink<'a> {
    /// The sink with room for as many bytes as `room` has, before its first call; the calls whose numbers
    /// are in `fails` will fail.
    pub fn new(room: Vec<u8>, fails: &'a [u64]) -> MemorySink<'a>
        ensures { result ≡ record { taken = []; room = length room.items; fails = fails.now; calls = 0; faults = 0 } }
    {
        MemorySink {
            room,
            filled: 0,
            fails,
            calls: 0,
            faults: 0,
        }
    }

    /// The bytes taken so far.
    pub fn taken(&self) -> &[u8]
        ensures { result.now ≡ self.now.taken }
    {
        &self.room[..self.filled]
    }
}

impl Sink for MemorySink<'_> {
    ghost taken = { λ s. Some s.taken };

    ghost faults = { λ s. s.faults };

    /// Takes as many bytes as there is room for, where there is room and this call is not one of those that
    /// fail.
    fn put(&mut self, piece: &[u8]) -> Result<usize, Failed>
        requires { 0 < length piece.now }
        ensures least { IfOk result (λ n. 1 ≤ n) }
        ensures most { IfOk result (λ n. n ≤ length piece.now) }
        ensures appended { IfOk result (λ n. Appends (Some self.old.taken) (Some self.new.taken) (take n piece.now)) }
        ensures kept { OnErr result (Keeps (Some self.old.taken) (Some self.new.taken)) }
        ensures counted { self.old.faults ≤ self.new.faults }
        ensures failed { OnErr result (Rose self.old.faults self.new.faults) }
        ensures all_that_fit { IfOk result (λ n. n ≡ min (length piece.now) self.old.room) }
        ensures room { self.new.room ≡ (if is_err result then self.old.room else self.old.room - length piece.now) }
        ensures calls { self.new.calls ≡ one_more self.old.calls }
        ensures listed { IsErr result ↔ (Contains self.old.fails (one_more self.old.calls) ⊎ (self.old.room ≡ 0)) }
        ensures fails { self.new.fails ≡ self.old.fails }
        ensures faults { self.new.faults ≡ (if is_err result then one_more self.old.faults else self.old.faults) }
    {
        self.calls = self.calls.saturating_add(1);
        let room = self.room.len() - self.filled;
        if room == 0 || self.fails.contains(&self.calls) {
            self.faults = self.faults.saturating_add(1);
            return Err(Failed);
        }
        let count = piece.len().min(room);
        let end = self.filled + count;
        self.room[self.filled..end].copy_from_slice(&piece[..count]);
        self.filled = end;
        Ok(count)
    }
}

/// A sink that never fails, keeps nothing, and does not tell its bytes: its count of faults is always 0.
#[derive(Clone, Copy, Debug)]
pub struct CleanSink;

impl CleanSink {
    /// The sink. There is one value of this type, so there is nothing for a clause to say.
    pub fn new() -> CleanSink {
        CleanSink
    }
}

impl Default for CleanSink {
    fn default() -> CleanSink {
        CleanSink::new()
    }
}

impl Sink for CleanSink {
    ghost taken = { λ _. None };

    ghost faults = { λ _. 0 };

    /// Takes all bytes.
    fn put(&mut self, piece: &[u8]) -> Result<usize, Failed>
        requires { 0 < length piece.now }
        ensures { result ≡ Ok (length piece.now) }
    {
        Ok(piece.len())
    }
}

/// A writer as a sink. Each error of the writer, and each write of no byte, raises the count of faults. It
/// tells what its writer tells.
#[derive(Debug, Drop)]
pub struct WriterSink<W> {
    writer: W,
    faults: u64,
}

impl<W: Write> WriterSink<W> {
    ghost use Rattle.race_io.specs.declared.writing.WriterSink.{WriterSink};

    /// The sink over `writer`, with no fault so far.
    pub fn new(writer: W) -> WriterSink<W>
        ensures { result ≡ record { writer = writer; faults = 0 } }
    {
        WriterSink { writer, faults: 0 }
    }
}

impl<W: Write> Sink for WriterSink<W> {
    ghost taken = { λ s. W.contents s.writer };

    ghost faults = { λ s. s.faults };

    fn put(&mut self, piece: &[u8]) -> Result<usize, Failed> {
        match self.writer.write(piece) {
            Ok(count) if count > 0 => Ok(count),
            _ => {
                self.faults = self.faults.saturating_add(1);
                Err(Failed)
            }
        }
    }
}

#[cfg(test)]
mod tests {
    use super::*;
    use std::io;
    use std::test::Fail;

    // Writes up to two bytes at each call, but fails at the third and writes none at the fifth.
    #[derive(Drop)]
    struct Slow {
        turn: u8,
        written: Vec<u8>,
    }

    impl Write for Slow {
        fn write(&mut self, piece: &[u8]) -> io::Result<usize> {
            self.turn = self.turn.saturating_add(1);
            if self.turn == 3 {
                return Err(io::Error::other("a fault in mid-stream"));
            }
            if self.turn == 5 {
                return Ok(0);
            }
            let count = piece.len().min(2);
            self.written.extend_from_slice(&piece[..count])?;
            Ok(count)
        }

        fn flush(&mut self) -> io::Result<()> {
            Ok(())
        }
    }

    #[test]
    fn writer_that_fails_in_mid_stream(rt: HostRuntime) -> Result<(), Fail> {
        let mut sink = WriterSink::new(Slow {
            turn: 0,
            written: Vec::new(rt.alloc()),
        });
        assert_eq!(rt; put_all(&mut sink, b"abcdef"), Err(Failed));
        assert_eq!(rt; sink.faults, 1);
        assert_eq!(rt; put_all(&mut sink, b"efgh"), Err(Failed));
        assert_eq!(rt; sink.faults, 2);
        assert_eq!(rt; put_all(&mut sink, b"gh"), Ok(()));
        assert_eq!(rt; sink.faults, 2);
        assert_eq!(rt; sink.writer.written.as_slice(), b"abcdefgh".as_slice());
        Ok(())
    }

    #[test]
    fn memory_sinks(rt: HostRuntime) -> Result<(), Fail> {
        let none: &[u64] = &[];
        let second: &[u64] = &[2];
        for (bytes, fails, taken, whole) in [
            (
                b"abcdefghij".as_slice(),
                none,
                b"abcdefghij".as_slice(),
                true,
            ),
            (
                b"abcdefghijk".as_slice(),
                none,
                b"abcdefghij".as_slice(),
                false,
            ),
            (
                b"abcdefghijk".as_slice(),
                second,
                b"abcdefghij".as_slice(),
                false,
            ),
        ] {
            let mut sink = MemorySink::new(vec![in rt.alloc(); 0u8; 10]?, fails);
            assert_eq!(rt; put_all(&mut sink, bytes).is_ok(), whole);
            assert_eq!(rt; sink.taken(), taken);
        }
        assert!(rt; put_all(&mut CleanSink::new(), b"abc").is_ok());
        Ok(())
    }
}
