// The questions that a session's calls put, and their refusals.
ghost use Rattle.std.specs.Prelude.{◌≡◌, Ok};
ghost use Rattle.session.specs.Questions.{question_of, ask};

use book::FillFault;
use std::error::Error;
use std::fmt;

/// Why a call is refused: the question that is answered no. They are put in this order.
#[derive(Clone, Copy, PartialEq, Eq, Debug)]
pub enum SessionFault {
    /// Is the session not done?
    Done = 7,
    /// Are numbers within their limits, price and mark in keeping with the kind, and the bid below the offer when neither is 0?
    OutOfLimits = 8,
    /// Is a new time not earlier?
    Earlier = 9,
    /// Is an order of the number listed?
    Unlisted = 10,
    /// Does the clock allow it?
    NotNow = 11,
    /// Is there a mandatory notice for the other side?
    NoNotice = 12,
    /// Is no order of the number listed?
    AlreadyListed = 13,
    /// Has the order list a place?
    OrdersFull = 14,
    /// Is the new size smaller?
    NotSmaller = 15,
    /// Is there a sale?
    NoSale = 16,
    /// Is there no mandatory notice?
    AlreadyMandatory = 17,
    /// Is the imbalance not 0 and, for a mandatory notice, large enough or flagged as significant?
    Insignificant = 18,
    /// Has the notice list a place?
    NoticesFull = 19,
    /// Has each work list a place for each row of the list?
    NoPlace = 20,
    /// Does an assignment exist?
    Unfillable = 21,
    /// Are claims and gifts equally long?
    Unequal = 22,
}

impl SessionFault {
    /// The number of the question that is answered no.
    pub fn question(self) -> u8
        ensures value { result ≡ question_of self }
    {
        self as u8
    }
}

/// The ground of the refusal, in words.
// By hand: a derived text has no contract.
impl fmt::Display for SessionFault {
    ghost use Rattle.std.specs.Prelude.{Some};
    ghost use Rattle.session.specs.Texts.{fault_text};

    ghost output = { λ fault. Some (fault_text fault) };

    ghost styled_output = { λ fault _. Some (fault_text fault) };

    fn fmt<W: fmt::Write>(&self, f: &mut fmt::Formatter<W>) -> fmt::Result {
        f.write_str(match self {
            SessionFault::Done => "the session is done",
            SessionFault::OutOfLimits => {
                "a number is outside its limits, or price, mark or quote are not in keeping"
            }
            SessionFault::Earlier => "the time is earlier than the clock",
            SessionFault::Unlisted => "no order of this number is listed",
            SessionFault::NotNow => "the clock does not allow it",
            SessionFault::NoNotice => "no mandatory notice for the other side stands",
            SessionFault::AlreadyListed => "an order of this number is listed already",
            SessionFault::OrdersFull => "the order list has no place left",
            SessionFault::NotSmaller => "the new size is not smaller",
            SessionFault::NoSale => "there is no sale yet",
            SessionFault::AlreadyMandatory => "a mandatory notice stands already",
            SessionFault::Insignificant => {
                "the imbalance is 0, or too small for a mandatory notice"
            }
            SessionFault::NoticesFull => "the notice list has no place left",
            SessionFault::NoPlace => return fmt::Display::fmt(&FillFault::NoPlace, f),
            SessionFault::Unfillable => return fmt::Display::fmt(&FillFault::Unfillable, f),
            SessionFault::Unequal => return fmt::Display::fmt(&FillFault::Unequal, f),
        })
    }
}

impl Error for SessionFault {}

/// The refusal of the same name, with the same number.
// By hand: a clause names the fault, and a derived conversion has no contract.
impl From<FillFault> for SessionFault {
    ghost use Rattle.book.specs.Answers.{question_of as fill_question_of};
    ghost use Rattle.session.specs.Questions.{of_fill};

    ghost from_gives = { λ fault r. (r ≡ of_fill fault) × (question_of r ≡ fill_question_of fault) };

    fn from(fault: FillFault) -> SessionFault {
        match fault {
            FillFault::NoPlace => SessionFault::NoPlace,
            FillFault::Unfillable => SessionFault::Unfillable,
            FillFault::Unequal => SessionFault::Unequal,
        }
    }
}

/// A question: refuses with `fault` when the answer is no.
pub(crate) fn ask(answer: bool, fault: SessionFault) -> Result<(), SessionFault>
    ensures value { result ≡ ask answer fault (Ok tt) }
{
    if answer { Ok(()) } else { Err(fault) }
}
