// A run of a file: it takes the file piece by piece, as it comes, and answers the lines that are due, one at a call.
ghost use Rattle.std.specs.Prelude.{◌≡◌, ◌≤◌, ◌<◌, ℕ, List as Elements, [], length, take, None, IfSome};
ghost use Rattle.life.specs.Stages.{Stage};
ghost use Rattle.line.specs.declared.Line.TheVariants.{Refusal};
ghost use Rattle.line.specs.Reading.{OfTypes};
ghost use Rattle.list.specs.Held.{kept};
ghost use Rattle.sharing.specs.Shares.{Divides};
ghost use Rattle.tape.specs.declared.run.Place.TheVariants.{Over};
ghost use Rattle.tape.specs.Messages.{reply_to, of_message, stage_left};
ghost use Rattle.tape.specs.Pieces.{AnswersEachFile};
ghost use Rattle.tape.specs.Places.{lists, opening, places_of};
ghost use Rattle.tape.specs.Runs.{place_of, spot_of, session_of, stage_of, standing, opened_at};
ghost use Rattle.tape.specs.Standing.{in_message, turn, due_fill, next_fills, after_message, in_message_byte, in_header_byte, byte_at, taken_from, advanced, is_over, last_line, line_at_end, spot_at_end};
ghost use Rattle.tape.specs.Tapes.{ReadBack, lines_of_file};
ghost use Rattle.tape.specs.Upheld.{messages_in, UpheldTape};

use crate::begun::Begun;
use crate::header::Awaited;
use crate::lines::{fill_line, fills_after, first_line};
use line::Line;
use list::List;
use message::{FileFault, MessageFault, decode};
use order::Row;
use session::{Call, Notice, Outcome, Session, SessionFault};
use sharing::Sharing;

/// The number of the last message that a file may have.
const LAST: u32 = 1_000_000;

/// Where a run stands in its file.
#[derive(Clone, Copy, PartialEq, Eq, Debug)]
enum Place {
    /// A byte of the header is awaited.
    Header(Awaited),
    /// The message of this number comes.
    Messages(u32),
    /// The file was refused, or has ended.
    Over,
}

/// How many bytes of a piece were taken, and the line that is due then. Where none is, all were taken.
#[derive(Clone, Copy, PartialEq, Eq, Debug)]
pub struct Advance {
    pub taken: usize,
    pub line: Option<Line>,
}

/// A run of a file: the session, where the run stands in the file, and the bytes of a message that has begun. `open` and `advance` are lent the two
/// lists, `advance` the method and the two work lists besides, and `finish` the list of orders. None of them can refuse.
#[derive(Drop, Debug)]
pub struct Run {
    session: Session,
    place: Place,
    begun: Begun,
    /// The place of the order whose F line is the next one, while those of a close are due.
    fills: Option<usize>,
}

impl Run {
    /// Begins a run with a session that opens on these lists, which are then empty.
    pub fn open(orders: &mut List<Row>, notices: &mut List<Notice>) -> Run
        ensures value { (claims gifts : Elements ℕ) →
            standing result orders.new notices.new claims gifts ≡ opened_at (opening (lists orders.old notices.old claims gifts)) }
        ensures pieces { (lot : ℕ) (meaning : _) → Divides meaning → (claims gifts : Elements ℕ) →
            AnswersEachFile lot meaning (standing result orders.new notices.new claims gifts) (places_of (lists orders.old notices.old claims gifts)) }
        ensures upheld { (lot : ℕ) (meaning : _) → Divides meaning → (claims gifts file : Elements ℕ) →
            UpheldTape (messages_in file) (lines_of_file lot meaning (places_of (lists orders.old notices.old claims gifts)) file) }
        ensures readable { ReadBack }
    {
        Run {
            session: Session::open(orders, notices),
            place: Place::Header(Awaited::C),
            begun: Begun::new(),
            fills: None,
        }
    }

    /// Takes bytes of a piece of the file until a line is due, or until all are taken, and answers how many it took, and the line. After the P
    /// line of a close each call answers an F line of it and takes no byte, until none is left. Lists and work lists then hold what the messages
    /// that were taken leave.
    pub fn advance<S: Sharing>(
        &mut self,
        orders: &mut List<Row>,
        notices: &mut List<Notice>,
        method: &S,
        claims: &mut [u32],
        gifts: &mut [u32],
        piece: &[u8],
    ) -> Advance
        ensures value { result ≡ (advanced S.LOT (S.meaning method.now) (standing self.old orders.old notices.old claims.old gifts.old) piece.now).answer }
        ensures after { standing self.new orders.new notices.new claims.new gifts.new
            ≡ (advanced S.LOT (S.meaning method.now) (standing self.old orders.old notices.old claims.old gifts.old) piece.now).standing }
        ensures types { IfSome result.line OfTypes }
        ensures within { result.taken ≤ length piece.now }
        ensures all { result.line ≡ None → result.taken ≡ length piece.now }
    {
        let fill = self.next_fill(orders);
        if fill.is_some() {
            return Advance {
                taken: 0,
                line: fill,
            };
        }
        let mut taken = 0;
        while taken < piece.len() {
            let more = self.take(orders, notices, method, claims, gifts, &piece[taken..]);
            taken += more.taken;
            if more.line.is_some() {
                return Advance {
                    taken,
                    line: more.line,
                };
            }
        }
        Advance { taken, line: None }
    }

    /// Whether the file was refused, or has ended: no byte makes a line due any more.
    pub fn is_over(&self) -> bool
        ensures value { result ≡ is_over (spot_of self.now).place }
    {
        match self.place {
            Place::Over => true,
            Place::Header(_) | Place::Messages(_) => false,
        }
    }

    /// Says that the file ends here, and answers the line that is due, or none: the F lines that are left, and then the refusal of a header or a message
    /// that is cut. The run is over from then on.
    pub fn finish(&mut self, orders: &List<Row>) -> Option<Line>
        ensures types { IfSome result OfTypes }
        ensures value { result ≡ line_at_end (spot_of self.old) (kept orders.now) }
        ensures after { spot_of self.new ≡ spot_at_end (spot_of self.old) (kept orders.now) }
        ensures session { session_of self.new ≡ session_of self.old }
    {
        let fill = self.next_fill(orders);
        if fill.is_some() {
            return fill;
        }
        let line = self.last_line();
        self.place = Place::Over;
        line
    }

    /// The next F line that is due, or none.
    fn next_fill(&mut self, orders: &List<Row>) -> Option<Line>
        ensures types { IfSome result OfTypes }
        ensures value { result ≡ due_fill self.old.fills (kept orders.now) }
        ensures after { self.new ≡ record self.old { fills = next_fills self.old.fills (kept orders.now) } }
    {
        let next = self.fills?;
        match orders.get(next) {
            Some(row) => {
                self.fills = Some(next + 1);
                Some(fill_line(row))
            }
            None => {
                self.fills = None;
                None
            }
        }
    }

    /// The line that the end of the file makes due here, or none.
    fn last_line(&self) -> Option<Line>
        ensures types { IfSome result OfTypes }
        ensures value { result ≡ last_line (place_of self.now.place self.now.begun) }
    {
        let place = self.place;
        match place {
            Place::Header(awaited) => Some(Line::Refusal {
                message: 0,
                fault: awaited.fault(),
            }),
            Place::Messages(message) => {
                if self.begun.is_empty() {
                    return None;
                }
                Some(Line::Refusal {
                    message,
                    fault: FileFault::NoMessage,
                })
            }
            Place::Over => None,
        }
    }

    /// Takes a whole message, where one lies in front and none has begun, or else a byte, or all where the run is over.
    fn take<S: Sharing>(
        &mut self,
        orders: &mut List<Row>,
        notices: &mut List<Notice>,
        method: &S,
        claims: &mut [u32],
        gifts: &mut [u32],
        bytes: &[u8],
    ) -> Advance
        requires { 0 < length bytes.now }
        ensures types { IfSome result.line OfTypes }
        ensures some { 0 < result.taken }
        ensures within { result.taken ≤ length bytes.now }
        ensures value { taken_from S.LOT (S.meaning method.now) (standing self.old orders.old notices.old claims.old gifts.old) (take result.taken bytes.now)
            ≡ record { answer = result; standing = standing self.new orders.new notices.new claims.new gifts.new } }
    {
        if let Some((message, _)) = bytes.split_first_chunk::<16>() {
            if let Some(number) = self.whole_message_next() {
                let line = self.take_message(
                    orders, notices, method, claims, gifts, number, message,
                );
                return Advance { taken: 16, line };
            }
        }
        let line = self.take_byte(orders, notices, method, claims, gifts, bytes[0]);
        Advance { taken: 1, line }
    }

    /// The number of the message that comes, where no byte of it has come and it is not past the last; or none.
    fn whole_message_next(&self) -> Option<u32>
        ensures at { IfSome result (λ number. (place_of self.now.place self.now.begun ≡ in_message number []) × (number ≤ 1000000)) }
    {
        match self.place {
            Place::Messages(number) if number <= LAST && self.begun.is_empty() => Some(number),
            Place::Header(_) | Place::Messages(_) | Place::Over => None,
        }
    }

    /// Takes a byte, and answers the line that is due then, or none.
    fn take_byte<S: Sharing>(
        &mut self,
        orders: &mut List<Row>,
        notices: &mut List<Notice>,
        method: &S,
        claims: &mut [u32],
        gifts: &mut [u32],
        byte: u8,
    ) -> Option<Line>
        ensures value { turn result (standing self.new orders.new notices.new claims.new gifts.new)
            ≡ byte_at S.LOT (S.meaning method.now) (standing self.old orders.old notices.old claims.old gifts.old) (place_of self.old.place self.old.begun) byte }
        ensures types { IfSome result OfTypes }
    {
        match self.place {
            Place::Header(awaited) => self.take_in_header(S::LOT, awaited, byte),
            Place::Messages(number) => {
                self.take_in_message(orders, notices, method, claims, gifts, number, byte)
            }
            Place::Over => None,
        }
    }

    /// Takes a byte where one of the header is awaited.
    fn take_in_header(&mut self, lot: u32, awaited: Awaited, byte: u8) -> Option<Line>
        ensures value { (meaning : _) (orders notices : _) (claims gifts : _) → turn result (standing self.new orders notices claims gifts)
            ≡ in_header_byte lot meaning (standing self.old orders notices claims gifts) awaited byte }
        ensures types { IfSome result OfTypes }
    {
        if byte != awaited.byte() {
            return Some(self.end(0, awaited.fault()));
        }
        match awaited.next() {
            Some(next) => {
                self.place = Place::Header(next);
                None
            }
            None => {
                self.place = Place::Messages(1);
                self.begun.clear();
                Some(Line::Lot(lot))
            }
        }
    }

    /// Takes a byte where message `number` comes.
    fn take_in_message<S: Sharing>(
        &mut self,
        orders: &mut List<Row>,
        notices: &mut List<Notice>,
        method: &S,
        claims: &mut [u32],
        gifts: &mut [u32],
        number: u32,
        byte: u8,
    ) -> Option<Line>
        ensures value { turn result (standing self.new orders.new notices.new claims.new gifts.new)
            ≡ in_message_byte S.LOT (S.meaning method.now) (standing self.old orders.old notices.old claims.old gifts.old) number self.old.begun byte }
        ensures types { IfSome result OfTypes }
    {
        if number > LAST {
            return Some(self.end(number, FileFault::NoMessage));
        }
        match self.begun.whole_with(byte) {
            Some(bytes) => {
                self.take_message(orders, notices, method, claims, gifts, number, &bytes)
            }
            None => {
                self.begun.add(byte);
                self.place = Place::Messages(number);
                None
            }
        }
    }

    /// Takes message `number`, and answers its first line, or none.
    fn take_message<S: Sharing>(
        &mut self,
        orders: &mut List<Row>,
        notices: &mut List<Notice>,
        method: &S,
        claims: &mut [u32],
        gifts: &mut [u32],
        number: u32,
        bytes: &[u8; 16],
    ) -> Option<Line>
        requires { number ≤ 1000000 }
        ensures value { turn result (standing self.new orders.new notices.new claims.new gifts.new)
            ≡ after_message S.LOT (S.meaning method.now) (standing self.old orders.old notices.old claims.old gifts.old) number bytes.now }
        ensures types { IfSome result OfTypes }
    {
        let reply = self.answer(orders, notices, method, claims, gifts, bytes);
        self.place = Place::Messages(number + 1);
        self.begun.clear();
        self.fills = fills_after(reply);
        first_line(number, reply)
    }

    /// Answers a message: as the session does, or with the ground on which the file refuses it.
    fn answer<S: Sharing>(
        &mut self,
        orders: &mut List<Row>,
        notices: &mut List<Notice>,
        method: &S,
        claims: &mut [u32],
        gifts: &mut [u32],
        bytes: &[u8; 16],
    ) -> Result<Outcome, FileFault>
        ensures value { result ≡ of_message (reply_to (stage_of self.old orders.old notices.old claims.old gifts.old) bytes.now) }
        ensures after { stage_of self.new orders.new notices.new claims.new gifts.new
            ≡ stage_left (S.meaning method.now) (stage_of self.old orders.old notices.old claims.old gifts.old) bytes.now }
    {
        let outcome = self.handle(orders, notices, method, claims, gifts, bytes)?;
        Ok(outcome)
    }

    /// Carries out the call of a message. Refuses, and changes nothing, when the bytes are no call (4 to 6), or the session refuses the call.
    fn handle<S: Sharing>(
        &mut self,
        orders: &mut List<Row>,
        notices: &mut List<Notice>,
        method: &S,
        claims: &mut [u32],
        gifts: &mut [u32],
        bytes: &[u8; 16],
    ) -> Result<Outcome, MessageFault>
        ensures value { result ≡ reply_to (stage_of self.old orders.old notices.old claims.old gifts.old) bytes.now }
        ensures after { stage_of self.new orders.new notices.new claims.new gifts.new
            ≡ stage_left (S.meaning method.now) (stage_of self.old orders.old notices.old claims.old gifts.old) bytes.now }
    {
        let call = decode(bytes)?;
        let outcome = self
            .session
            .apply(orders, notices, method, claims, gifts, call)?;
        Ok(outcome)
    }

    /// Ends the run with a refusal of the file, and answers its line.
    fn end(&mut self, message: u32, fault: FileFault) -> Line
        ensures value { result ≡ Refusal message fault }
        ensures types { OfTypes result }
        ensures after { self.new ≡ record self.old { place = Over } }
    {
        self.place = Place::Over;
        Line::Refusal { message, fault }
    }
}
