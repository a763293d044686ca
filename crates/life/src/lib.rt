// A whole life of a session: its calls in order, and each answer.
#![tactic(auto)]

ghost use Rattle.std.specs.Prelude.{◌≡◌, ◌++◌, length, take, drop, Ok, Err, IfOk, Some};
ghost use Rattle.list.specs.Held.{kept};
ghost use Rattle.life.specs.Places.{too_few_places, too_few_places_text, if_places};
ghost use Rattle.life.specs.Stages.{ending, moments_of, all_answers};
ghost use Rattle.life.specs.Whole.{WholeLife};

use list::List;
use order::Row;
use session::{Call, Notice, Outcome, Session, SessionFault};
use sharing::Sharing;
use std::error::Error;
use std::fmt;

/// There are fewer places for answers than calls.
#[derive(Clone, Copy, PartialEq, Eq, Debug)]
pub struct TooFewPlaces;

/// The ground of the refusal, in words.
// By hand: a derived text has no contract.
impl fmt::Display for TooFewPlaces {
    ghost output = { λ _. Some too_few_places_text };

    ghost styled_output = { λ _ _. Some too_few_places_text };

    fn fmt<W: fmt::Write>(&self, f: &mut fmt::Formatter<W>) -> fmt::Result {
        f.write_str("there are fewer places for answers than calls")
    }
}

impl Error for TooFewPlaces {}

/// Lives a whole life: opens a session on the two lists, which are then empty, and applies the calls in their order. Each answer is written at
/// the place of its call; later places keep what they held. Lists and work lists then hold what the calls, one after another, have left.
/// Returns the session at the end.
///
/// Refuses, and changes nothing, when there are fewer places for answers than calls.
pub fn live<S: Sharing>(
    orders: &mut List<Row>,
    notices: &mut List<Notice>,
    method: &S,
    claims: &mut [u32],
    gifts: &mut [u32],
    calls: &[Call],
    answers: &mut [Result<Outcome, SessionFault>],
) -> Result<Session, TooFewPlaces>
    ensures value { result ≡ if_places calls.now answers.old
        (Ok (ending (S.meaning method.now) orders.old notices.old claims.old gifts.old calls.now).moment.state)
        (Err too_few_places) }
    ensures orders { orders.new ≡ if_places calls.now answers.old
        (ending (S.meaning method.now) orders.old notices.old claims.old gifts.old calls.now).moment.orders
        orders.old }
    ensures notices { notices.new ≡ if_places calls.now answers.old
        (ending (S.meaning method.now) orders.old notices.old claims.old gifts.old calls.now).moment.notices
        notices.old }
    ensures claims { claims.new ≡ if_places calls.now answers.old
        (ending (S.meaning method.now) orders.old notices.old claims.old gifts.old calls.now).work.claims
        claims.old }
    ensures gifts { gifts.new ≡ if_places calls.now answers.old
        (ending (S.meaning method.now) orders.old notices.old claims.old gifts.old calls.now).work.gifts
        gifts.old }
    ensures answers { answers.new ≡ if_places calls.now answers.old
        (all_answers (S.meaning method.now) orders.old notices.old claims.old gifts.old calls.now ++ drop (length calls.now) answers.old)
        answers.old }
    ensures whole { let moments = moments_of (S.meaning method.now) orders.old notices.old claims.old gifts.old calls.now in
        IfOk result (λ state. WholeLife calls.now (take (length calls.now) answers.new) moments state (kept orders.new) (kept notices.new)) }
{
    if answers.len() < calls.len() {
        return Err(TooFewPlaces);
    }
    let mut session = Session::open(orders, notices);
    for (place, call) in calls.iter().enumerate() {
        answers[place] = session.apply(orders, notices, method, claims, gifts, *call);
    }
    Ok(session)
}
