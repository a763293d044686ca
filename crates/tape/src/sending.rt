// Lines are held back, and sent together.
ghost use Rattle.std.specs.Prelude.{◌≡◌, ◌+◌, ◌≤◌, ◌++◌, [], length, MatchResult};
ghost use Rattle.line.specs.Texts.{line_text};
ghost use Rattle.tape.specs.Sending.{Sends, Breaks};

use crate::ends::Sink;
use arrayvec::ArrayVec;
use line::{Line, MOST};
use std::io;
use std::io::ErrorKind;

/// How many bytes are held back at most.
const HELD: usize = 8192;

/// The bytes of lines that are not sent yet.
pub(crate) type Unsent = ArrayVec<u8, HELD>;

/// Sends all of these bytes. A write that was interrupted is tried again; one that takes no byte has failed.
fn send<O: Sink>(output: &mut O, bytes: &[u8]) -> io::Result<()>
    requires { length bytes.now ≤ 8192 }
    ensures cases { MatchResult result
        (λ _. Sends (O.output output.old) (O.output output.new) bytes.now [] [])
        (λ _. Breaks (O.output output.old) (O.output output.new) bytes.now) }
{
    let mut rest = bytes;
    // A loop has to have an end; no write is interrupted so often.
    for turn in 0..u64::MAX {
        let _ = turn;
        if rest.is_empty() {
            return Ok(());
        }
        match output.write(rest) {
            Ok(0) => return Err(io::Error::from(ErrorKind::WriteZero)),
            Ok(count) => rest = &rest[count..],
            Err(error) if error.kind() == ErrorKind::Interrupted => {}
            Err(error) => return Err(error),
        }
    }
    Err(io::Error::from(ErrorKind::TimedOut))
}

/// Sends what is held back.
fn send_unsent<O: Sink>(output: &mut O, unsent: &mut Unsent) -> io::Result<()>
    ensures cases { MatchResult result
        (λ _. Sends (O.output output.old) (O.output output.new) unsent.old.items unsent.new.items [] × (unsent.new.items ≡ []))
        (λ _. Breaks (O.output output.old) (O.output output.new) unsent.old.items) }
{
    send(output, unsent.as_slice())?;
    unsent.clear();
    Ok(())
}

/// Sends what is held back, and has the output pass it on.
pub(crate) fn send_now<O: Sink>(output: &mut O, unsent: &mut Unsent) -> io::Result<()>
    ensures cases { MatchResult result
        (λ _. Sends (O.output output.old) (O.output output.new) unsent.old.items unsent.new.items [] × (unsent.new.items ≡ []))
        (λ _. Breaks (O.output output.old) (O.output output.new) unsent.old.items) }
{
    send_unsent(output, unsent)?;
    output.flush()
}

/// Sends what is held back, unless there is room for a line more.
fn make_room<O: Sink>(output: &mut O, unsent: &mut Unsent) -> io::Result<()>
    ensures cases { MatchResult result
        (λ _. Sends (O.output output.old) (O.output output.new) unsent.old.items unsent.new.items [] × (length unsent.new.items + 64 ≤ 8192))
        (λ _. Breaks (O.output output.old) (O.output output.new) unsent.old.items) }
{
    if unsent.remaining_capacity() >= MOST {
        return Ok(());
    }
    send_unsent(output, unsent)
}

/// Holds a line back, and sends those before it where there is no room for it.
pub(crate) fn write_line<O: Sink>(output: &mut O, unsent: &mut Unsent, line: Line) -> io::Result<()>
    ensures cases { MatchResult result
        (λ _. Sends (O.output output.old) (O.output output.new) unsent.old.items unsent.new.items (line_text line))
        (λ _. Breaks (O.output output.old) (O.output output.new) (unsent.old.items ++ line_text line)) }
{
    make_room(output, unsent)?;
    let text = line.text();
    unsent
        .try_extend_from_slice(text.as_str().as_bytes())
        .unwrap();
    Ok(())
}
