// An output in memory, and a file that is played from memory to it.
ghost use Rattle.std.specs.Prelude.{◌≡◌, ◌+◌, ◌≤◌, ◌++◌, [], length, take, Some, IsOk, OnOk};
ghost use Rattle.tape.specs.Ends.{Input, HasRoom};
ghost use Rattle.tape.specs.Memory.{written_in, output_of, file_in_memory};
ghost use Rattle.tape.specs.Places.{lists, places_of};
ghost use Rattle.tape.specs.Played.{lent, PlaysFile};
ghost use Rattle.tape.specs.Tapes.{tape_of};

use crate::ends::Sink;
use crate::play::play_file;
use crate::trouble::Trouble;
use list::List;
use order::Row;
use session::Notice;
use sharing::Sharing;
use std::io;

/// Bytes in lent places, the first of which are written. It takes bytes until no place is left, and never fails.
#[derive(Drop)]
pub struct Memory<'a> {
    places: &'a mut [u8],
    count: usize,
}

impl<'a> Memory<'a> {
    /// An output to these places. No byte is written.
    pub fn new(places: &'a mut [u8]) -> Memory<'a>
        ensures value { output_of result ≡ record { bytes = Some []; room = Some (length places.entry.now) } }
    {
        Memory { places, count: 0 }
    }

    /// The bytes that were written.
    pub fn written(&self) -> &[u8]
        ensures value { result.now ≡ written_in self.now }
    {
        &self.places[..self.count.min(self.places.len())]
    }
}

/// Copies bytes to a place.
fn copy_to(places: &mut [u8], place: usize, bytes: &[u8])
    requires { place + length bytes.now ≤ length places.old }
    ensures after { take (place + length bytes.now) places.new ≡ take place places.old ++ bytes.now }
{
    places[place..place + bytes.len()].copy_from_slice(bytes);
}

impl Sink for Memory<'_> {
    ghost output = { output_of };

    fn write(&mut self, bytes: &[u8]) -> io::Result<usize> {
        let free = self.places.len().saturating_sub(self.count);
        let count = bytes.len().min(free);
        if count == 0 {
            return Ok(0);
        }
        copy_to(self.places, self.count, &bytes[..count]);
        self.count += count;
        Ok(count)
    }

    fn flush(&mut self) -> io::Result<()> {
        Ok(())
    }
}

/// Plays a file that lies in memory to an output in memory, as `play_file` does. Where the output has a place left for each byte of the tape, it
/// succeeds, and the tape is written behind what the output held. Places behind that may hold anything.
pub fn play_in_memory<S: Sharing>(
    file: &[u8],
    output: &mut Memory<'_>,
    orders: &mut List<Row>,
    notices: &mut List<Notice>,
    method: &S,
    claims: &mut [u32],
    gifts: &mut [u32],
) -> Result<(), Trouble>
    ensures plays { (left : Input) × PlaysFile S.LOT (S.meaning method.now) result
        (lent (file_in_memory file.now) (output_of output.old) (lists orders.old notices.old claims.old gifts.old))
        (lent left (output_of output.new) (lists orders.new notices.new claims.new gifts.new)) }
    ensures succeeds { let tape = tape_of S.LOT (S.meaning method.now) (places_of (lists orders.old notices.old claims.old gifts.old)) file.now in
        HasRoom (output_of output.old) (length tape) → IsOk result }
    ensures tape { let tape = tape_of S.LOT (S.meaning method.now) (places_of (lists orders.old notices.old claims.old gifts.old)) file.now in
        OnOk result (written_in output.new ≡ written_in output.old ++ tape) }
{
    let mut input = file;
    play_file(&mut input, output, orders, notices, method, claims, gifts)
}
