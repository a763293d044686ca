// The tape of a file that comes in pieces of one size.
ghost use Rattle.std.specs.Prelude.{Some, false};

use crate::Trouble;
use player::play_between;
use sharing::Sharing;
use std::alloc::Global;
use std::io;
use std::io::Write;
use tape::{Source, Writer};

/// A file in memory, of which each read brings `size` bytes at the most, or one where that is 0.
#[derive(Drop)]
struct InPieces<'a> {
    rest: &'a [u8],
    size: usize,
}

impl Source for InPieces<'_> {
    ghost input = { λ s. record { bytes = Some s.rest.now; may_fail = false } };

    fn read(&mut self, piece: &mut [u8]) -> io::Result<usize> {
        let count = piece.len().min(self.size.max(1)).min(self.rest.len());
        piece[..count].copy_from_slice(&self.rest[..count]);
        self.rest = &self.rest[count..];
        Ok(count)
    }
}

/// Prints the tape of a file by a method, under a line with the name of the file and the word of the method. Another line follows for each size of
/// pieces that makes another tape than single bytes do.
pub(crate) fn print_tape<R: AllocGlobal + Print, S: Sharing>(
    rt: &R,
    name: &str,
    word: &str,
    method: &S,
    file: &[u8],
) -> Result<(), Trouble> {
    let tape = tape_of(rt.alloc(), file, 1, method)?;
    println!(rt; "{name} by {word}").map_err(Trouble::Output)?;
    io::writer(rt).write_all(&tape).map_err(Trouble::Output)?;
    for size in [7, 16, 4096] {
        let other = tape_of(rt.alloc(), file, size, method)?;
        if other != tape {
            println!(rt; "pieces of {size} bytes make another tape").map_err(Trouble::Output)?;
        }
    }
    Ok(())
}

/// The tape of a file that comes in pieces of `size` bytes.
fn tape_of<S: Sharing>(
    heap: Global,
    file: &[u8],
    size: usize,
    method: &S,
) -> Result<Vec<u8>, Trouble> {
    let mut input = InPieces { rest: file, size };
    let mut output = Writer(Vec::new(heap));
    play_between(&mut input, &mut output, method)?;
    Ok(output.0)
}
