// Where a file comes from, and where its tape goes.
ghost use Rattle.std.specs.Prelude.{◌≡◌, ℕ, ◌+◌, ◌<◌, length, true, false, Some, None, IfOk, OnErr};
ghost use Rattle.std.specs.Io.{ReadsAtMost, WritesAtMost};
ghost use Rattle.std.specs.Io.KnownBytes.{Keeps, ReadConsumes, WriteAppends};
ghost use Rattle.tape.specs.Ends.{Input, Output, HasRoom};

use std::io;
use std::io::{Read, Write};

/// What brings the bytes of a file.
// The library's `Read` cannot say that a read never fails (docs/DECISIONS.md, "Two ends of our own").
pub trait Source {
    // The bytes that reads will bring, where they are known, and whether a read may fail.
    ghost input: { Self → Input };

    /// Reads the next bytes into the front of `piece`, and answers how many; 0 only at the end of the file, or where `piece` has no place. Where it
    /// fails, no byte is read, and a read may be tried again.
    fn read(&mut self, piece: &mut [u8]) -> io::Result<usize>
        ensures bound { ReadsAtMost result piece.new }
        ensures bytes { ReadConsumes (input self.old).bytes (input self.new).bytes result piece.new }
        ensures fails { OnErr result ((input self.old).may_fail ≡ true) }
        ensures stays { (input self.new).may_fail ≡ true → (input self.old).may_fail ≡ true };
}

/// What takes the bytes of a tape.
pub trait Sink {
    // The bytes that were written, where they are known, and how many more are taken for sure.
    ghost output: { Self → Output };

    /// Takes the first of these bytes, and answers how many. Where it fails, no byte is taken, and a write may be tried again.
    fn write(&mut self, bytes: &[u8]) -> io::Result<usize>
        ensures bound { WritesAtMost result bytes.now }
        ensures bytes { WriteAppends (output self.old).bytes (output self.new).bytes result bytes.now }
        ensures some { IfOk result (λ count. HasRoom (output self.old) (length bytes.now) → 0 < length bytes.now → 0 < count) }
        ensures spends { IfOk result (λ count. (more : ℕ) → HasRoom (output self.old) (count + more) → HasRoom (output self.new) more) }
        ensures fails { OnErr result (HasRoom (output self.old) (length bytes.now) → ⊥) };

    /// Passes on what it took. It takes no byte.
    fn flush(&mut self) -> io::Result<()>
        ensures bytes { Keeps (output self.old).bytes (output self.new).bytes }
        ensures fails { OnErr result (HasRoom (output self.old) 0 → ⊥) }
        ensures stays { (count : ℕ) → HasRoom (output self.old) count → HasRoom (output self.new) count };
}

/// Any reader of the library. Any read may fail.
#[derive(Drop)]
pub struct Reader<R>(pub R);

impl<R: Read> Source for Reader<R> {
    ghost input = { λ s. record { bytes = R.remaining s.0; may_fail = true } };

    fn read(&mut self, piece: &mut [u8]) -> io::Result<usize> {
        self.0.read(piece)
    }
}

/// Any writer of the library. Any write, and any flush, may fail.
#[derive(Drop)]
pub struct Writer<W>(pub W);

impl<W: Write> Sink for Writer<W> {
    ghost output = { λ s. record { bytes = W.contents s.0; room = None } };

    fn write(&mut self, bytes: &[u8]) -> io::Result<usize> {
        self.0.write(bytes)
    }

    fn flush(&mut self) -> io::Result<()> {
        self.0.flush()
    }
}

/// A file that lies in memory. No read fails.
impl Source for &[u8] {
    ghost input = { λ s. record { bytes = Some s.now; may_fail = false } };

    fn read(&mut self, piece: &mut [u8]) -> io::Result<usize> {
        Read::read(self, piece)
    }
}
