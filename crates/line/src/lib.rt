// The lines of a tape, and the bytes of each.
#![tactic(auto)]

ghost use Rattle.std.specs.Prelude.{◌≡◌, ◌+◌, ◌≤◌, ◌++◌, length, codes};
ghost use Rattle.arrayvec.specs.ArrayString.{array_string_len};
ghost use Rattle.line.specs.Reading.{EndsAtLineFeed, HasOwnText};
ghost use Rattle.line.specs.Texts.{line_text, side_code};

use arrayvec::ArrayString;
use itoa::{Buffer, Integer};
use message::FileFault;
use order::Side;

/// Room for a line: none has more bytes.
pub const MOST: usize = 64;

/// A line of a tape.
#[derive(Clone, Copy, PartialEq, Eq, Debug)]
pub enum Line {
    /// `U lot`: the lot of the sharing method, after a good header.
    Lot(u32),
    /// `N message amount reference`: a notice that a message published, with its amount, which may be negative, and the reference price.
    Notice {
        message: u32,
        amount: i64,
        reference: u32,
    },
    /// `P price volume`: the print of the close.
    Print {
        price: u32,
        volume: u64,
    },
    /// `F number side filled unfilled`: what the close gave an order, and what that lacks.
    Fill {
        number: u32,
        side: Side,
        filled: u32,
        unfilled: u32,
    },
    /// `R message layer question`: the message that was refused, 0 for the header, and why.
    Refusal {
        message: u32,
        fault: FileFault,
    },
}

impl Line {
    /// The bytes of the line, at most 64: a letter, the fields with one space before each, numbers in decimal, `-` before a
    /// negative one, a side as its letter, and a line feed, which stands nowhere else in them. No other line has these bytes.
    /// There is room for 64.
    pub fn text(self) -> ArrayString<MOST>
        ensures value { result.bytes ≡ line_text self }
        ensures short { length (line_text self) ≤ 64 }
        ensures room { MOST ≡ 64 }
        ensures ends { EndsAtLineFeed (line_text self) }
        ensures readable { HasOwnText self }
    {
        let mut text = ArrayString::new();
        match self {
            Line::Lot(lot) => {
                text.push_str("U");
                add(&mut text, lot);
            }
            Line::Notice {
                message,
                amount,
                reference,
            } => {
                text.push_str("N");
                add(&mut text, message);
                add(&mut text, amount);
                add(&mut text, reference);
            }
            Line::Print { price, volume } => {
                text.push_str("P");
                add(&mut text, price);
                add(&mut text, volume);
            }
            Line::Fill {
                number,
                side,
                filled,
                unfilled,
            } => {
                text.push_str("F");
                add(&mut text, number);
                text.push_str(side_code(side));
                add(&mut text, filled);
                add(&mut text, unfilled);
            }
            Line::Refusal { message, fault } => {
                text.push_str("R");
                add(&mut text, message);
                add(&mut text, fault.layer().number());
                add(&mut text, fault.question());
            }
        }
        text.push_str("\n");
        text
    }
}

/// Adds a space and a number.
fn add<I: Integer>(text: &mut ArrayString<MOST>, number: I)
    requires { array_string_len text.old + 1 + I.MAX_STR_LEN ≤ 64 }
    ensures bytes { text.new.bytes ≡ text.old.bytes ++ codes " " ++ I.text number }
    ensures short { array_string_len text.new ≤ array_string_len text.old + 1 + I.MAX_STR_LEN }
{
    let mut digits = Buffer::new();
    text.push_str(" ");
    text.push_str(digits.format(number));
}

/// A space and the letter of a side.
fn side_code(side: Side) -> &'static str
    ensures value { result.now ≡ side_code side }
{
    match side {
        Side::Buy => " B",
        Side::Sell => " S",
    }
}
