// What the programs that play a file share: places for a session, the refusal of arguments, and the status.
#![tactic(auto)]

ghost use Rattle.std.specs.Prelude.{MatchResult, IsOk};
ghost use Rattle.std.specs.Process.{exit_status};
ghost use Rattle.player.specs.Played.{program_places, WritesTape, WritesBeginning, StatusTells};
ghost use Rattle.tape.specs.Played.{NothingFails};

mod trouble;

use list::List;
use order::{Kind, Row, Side};
use session::Notice;
use sharing::Sharing;
use std::env;
use std::process::ExitCode;
use std::rt::Env;
use tape::{Sink, Source, play_file};
use trouble::Trouble;

/// How many orders a session has places for. Each work list has as many.
const ORDERS: usize = 1024;

/// How many notices a session has places for.
const NOTICES: usize = 64;

/// Plays the file that `input` brings, for the program of this name: its tape goes to `output`, and `method` shares out its close. The status is 0
/// only where the tape is written; else it is 1, and a beginning of the tape is written, some bytes or none or all.
// It is 1 where the program was given an argument, and where a read, a write or a flush failed, which standard error tells: of arguments and of what
// is printed no clause can speak.
pub fn play<R: Env + Alloc + Eprint, I: Source, O: Sink, S: Sharing>(
    rt: &R,
    name: &'static str,
    input: &mut I,
    output: &mut O,
    method: &S,
) -> ExitCode
    ensures status { StatusTells S.LOT (S.meaning method.now) (exit_status result) (I.input input.old) (O.output output.old) (O.output output.new) }
{
    match play_alone(rt, name, input, output, method) {
        Ok(()) => ExitCode::SUCCESS,
        Err(trouble) => {
            let _ = eprintln!(rt; "{name}: {trouble}");
            ExitCode::FAILURE
        }
    }
}

/// Plays a file on the places of a program: 1,024 for orders, 64 for notices, and 1,024 in each work list. Where no read may fail, and the output has
/// room for the tape, it succeeds; where it ends in trouble, a beginning of the tape is written.
pub fn play_between<I: Source, O: Sink, S: Sharing>(
    input: &mut I,
    output: &mut O,
    method: &S,
) -> Result<(), tape::Trouble>
    ensures tape { MatchResult result
        (λ _. WritesTape S.LOT (S.meaning method.now) (I.input input.old) (O.output output.old) (O.output output.new))
        (λ _. WritesBeginning S.LOT (S.meaning method.now) (I.input input.old) (O.output output.old) (O.output output.new)) }
    ensures succeeds { NothingFails S.LOT (S.meaning method.now) program_places (I.input input.old) (O.output output.old) → IsOk result }
{
    let mut order_places = [Row::unfilled(0, Kind::Crowd, Side::Buy, false, 0, 0); ORDERS];
    let mut notice_places = [Notice {
        amount: 0,
        reference: 0,
        mandatory: false,
    }; NOTICES];
    let mut orders = List::new(&mut order_places);
    let mut notices = List::new(&mut notice_places);
    let mut claims = [0; ORDERS];
    let mut gifts = [0; ORDERS];
    play_file(
        input,
        output,
        &mut orders,
        &mut notices,
        method,
        &mut claims,
        &mut gifts,
    )
}

/// Plays a file, unless the program was given an argument.
fn play_alone<R: Env + Alloc, I: Source, O: Sink, S: Sharing>(
    rt: &R,
    name: &'static str,
    input: &mut I,
    output: &mut O,
    method: &S,
) -> Result<(), Trouble>
    ensures tape { MatchResult result
        (λ _. WritesTape S.LOT (S.meaning method.now) (I.input input.old) (O.output output.old) (O.output output.new))
        (λ _. WritesBeginning S.LOT (S.meaning method.now) (I.input input.old) (O.output output.old) (O.output output.new)) }
{
    refuse_argument(rt, name)?;
    match play_between(input, output, method) {
        Ok(()) => Ok(()),
        Err(trouble) => Err(Trouble::Play(trouble)),
    }
}

/// Refuses any argument.
fn refuse_argument<R: Env + Alloc>(rt: &R, name: &'static str) -> Result<(), Trouble> {
    let mut words = env::args(rt).map_err(Trouble::Arguments)?.skip(1);
    match words.next() {
        None => Ok(()),
        Some(_) => Err(Trouble::Argument(name)),
    }
}
