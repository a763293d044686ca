// A whole file is played: it comes from a source, and its tape goes to a sink.
ghost use Rattle.std.specs.Prelude.{◌≡◌, ◌<◌, ℕ, List as Elements, [], length, MatchResult, OnOk, IsOk};
ghost use Rattle.list.specs.Held.{kept};
ghost use Rattle.tape.specs.Places.{lists, places_of};
ghost use Rattle.tape.specs.Parts.{Plays, Stops, Finished, Unfinished};
ghost use Rattle.tape.specs.Played.{lent, PlaysFile, NothingFails};
ghost use Rattle.tape.specs.Runs.{spot_of, session_of, standing};
ghost use Rattle.tape.specs.Tapes.{lines_of_file};
ghost use Rattle.tape.specs.Upheld.{messages_in, UpheldTape};

use crate::ends::{Sink, Source};
use crate::run::Run;
use crate::sending::{Unsent, send_now, write_line};
use crate::trouble::{Trouble, of_output};
use list::List;
use order::Row;
use session::Notice;
use sharing::Sharing;
use std::io;
use std::io::ErrorKind;

/// The most bytes that are read at a time.
const PIECE: usize = 65_536;

/// Plays a whole file: it comes from `input`, its session opens on the two lists, `method` shares out its close over the two work lists, and its
/// tape goes to `output`. Nothing is allocated.
///
/// It succeeds at the end of the file, or as soon as the file is refused: its tape is written then. It ends in trouble only where a read, a write or
/// a flush may fail, and the trouble names the end that may have failed. A beginning of the tape is written then, and where a read failed, every line
/// that was due before. Lists and work lists hold what the messages leave that were taken.
// What a piece of the file makes due is written before the next is read, since whoever sends the file may wait for it. A read or a write that was
// interrupted is tried again.
pub fn play_file<I: Source, O: Sink, S: Sharing>(
    input: &mut I,
    output: &mut O,
    orders: &mut List<Row>,
    notices: &mut List<Notice>,
    method: &S,
    claims: &mut [u32],
    gifts: &mut [u32],
) -> Result<(), Trouble>
    ensures plays { PlaysFile S.LOT (S.meaning method.now) result
        (lent (I.input input.old) (O.output output.old) (lists orders.old notices.old claims.old gifts.old))
        (lent (I.input input.new) (O.output output.new) (lists orders.new notices.new claims.new gifts.new)) }
    ensures succeeds { NothingFails S.LOT (S.meaning method.now) (places_of (lists orders.old notices.old claims.old gifts.old))
        (I.input input.old) (O.output output.old) → IsOk result }
    ensures upheld { (file : Elements ℕ) → UpheldTape (messages_in file)
        (lines_of_file S.LOT (S.meaning method.now) (places_of (lists orders.old notices.old claims.old gifts.old)) file) }
{
    let mut piece = [0; PIECE];
    play_pieces(
        input, output, orders, notices, method, claims, gifts, &mut piece,
    )
}

/// Plays one piece after another.
fn play_pieces<I: Source, O: Sink, S: Sharing>(
    input: &mut I,
    output: &mut O,
    orders: &mut List<Row>,
    notices: &mut List<Notice>,
    method: &S,
    claims: &mut [u32],
    gifts: &mut [u32],
    piece: &mut [u8],
) -> Result<(), Trouble>
    requires { 0 < length piece.old }
    ensures plays { PlaysFile S.LOT (S.meaning method.now) result
        (lent (I.input input.old) (O.output output.old) (lists orders.old notices.old claims.old gifts.old))
        (lent (I.input input.new) (O.output output.new) (lists orders.new notices.new claims.new gifts.new)) }
{
    let mut run = Run::open(orders, notices);
    let mut unsent = Unsent::new();
    // A loop has to have an end; no read is interrupted so often.
    for turn in 0..u64::MAX {
        let _ = turn;
        match input.read(piece) {
            Ok(0) => return of_output(play_end(output, &mut unsent, &mut run, orders)),
            Ok(count) => {
                let piece = &piece[..count];
                let played = play_piece(
                    output,
                    &mut unsent,
                    &mut run,
                    orders,
                    notices,
                    method,
                    claims,
                    gifts,
                    piece,
                );
                if let Err(error) = played {
                    return Err(Trouble::Output(error));
                }
                if run.is_over() {
                    return of_output(play_end(output, &mut unsent, &mut run, orders));
                }
            }
            Err(error) if error.kind() == ErrorKind::Interrupted => {}
            Err(error) => return Err(Trouble::Input(error)),
        }
    }
    Err(Trouble::Input(io::Error::from(ErrorKind::TimedOut)))
}

/// Takes all bytes of a piece, and writes the lines that they make due.
fn play_piece<O: Sink, S: Sharing>(
    output: &mut O,
    unsent: &mut Unsent,
    run: &mut Run,
    orders: &mut List<Row>,
    notices: &mut List<Notice>,
    method: &S,
    claims: &mut [u32],
    gifts: &mut [u32],
    piece: &[u8],
) -> io::Result<()>
    requires { unsent.old.items ≡ [] }
    ensures cases { MatchResult result
        (λ _. Plays S.LOT (S.meaning method.now) (standing run.old orders.old notices.old claims.old gifts.old)
        (standing run.new orders.new notices.new claims.new gifts.new) (O.output output.old) (O.output output.new) piece.now)
        (λ _. Stops S.LOT (S.meaning method.now) (standing run.old orders.old notices.old claims.old gifts.old)
        (standing run.new orders.new notices.new claims.new gifts.new) (O.output output.old) (O.output output.new) piece.now) }
    ensures forgotten { OnOk result (unsent.new.items ≡ []) }
{
    let mut rest = piece;
    loop {
        let next = run.advance(orders, notices, method, claims, gifts, rest);
        rest = &rest[next.taken..];
        match next.line {
            Some(line) => write_line(output, unsent, line)?,
            None => return send_now(output, unsent),
        }
    }
}

/// Writes the lines that the end of the file makes due.
fn play_end<O: Sink>(
    output: &mut O,
    unsent: &mut Unsent,
    run: &mut Run,
    orders: &List<Row>,
) -> io::Result<()>
    requires { unsent.old.items ≡ [] }
    ensures cases { MatchResult result
        (λ _. Finished (spot_of run.old) (kept orders.now) (O.output output.old) (O.output output.new))
        (λ _. Unfinished (spot_of run.old) (kept orders.now) (O.output output.old) (O.output output.new)) }
    ensures session { session_of run.new ≡ session_of run.old }
{
    loop {
        match run.finish(orders) {
            Some(line) => write_line(output, unsent, line)?,
            None => return send_now(output, unsent),
        }
    }
}
