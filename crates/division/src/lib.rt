// Divides an amount over claims, from the text that asks it to the table that answers.
#![tactic(auto)]

mod columns;
mod gifts;
mod reading;

ghost use Rattle.std.specs.Prelude.{◌≡◌, IfOk, Some, string_bytes};
ghost use Rattle.division.specs.declared.Fault.TheVariants.{Memory as OfMemory};
ghost use Rattle.division.specs.Tasks.{task_of, asked};
ghost use Rattle.division.specs.Answers.{Answers, answer_of, fault_text};
ghost use Rattle.division.specs.Table.{table_of};

use columns::table_by;
use gifts::gifts_by;
use reading::{LARGEST_AMOUNT, LARGEST_CLAIM, first_word, number};
use sharing::{ByArrival, ByTurns};
use std::alloc::{AllocError, AllocFailed, Global};
use std::error::Error;
use std::fmt;

/// An amount, and the claims on it in the order of their arrival.
#[derive(Debug, Drop)]
pub struct Task {
    pub amount: u64,
    pub claims: Vec<u32>,
}

/// Why a text asks no task. A word's place counts from 1.
#[derive(Clone, Copy, PartialEq, Eq, Debug)]
pub enum Fault {
    /// The text has no word.
    NoAmount,
    /// The text has one word, the amount.
    NoClaim,
    /// The word has a byte that is no digit.
    NoNumber(usize),
    /// The word is a number above its limit.
    TooLarge(usize),
    /// There is not enough memory.
    Memory,
}

/// The ground of the refusal, in words.
// By hand: a derived text has no contract.
impl fmt::Display for Fault {
    ghost output = { λ f. Some (fault_text f) };

    fn fmt<W: fmt::Write>(&self, f: &mut fmt::Formatter<W>) -> fmt::Result {
        match self {
            Fault::NoAmount => write!(f, "no amount is given"),
            Fault::NoClaim => write!(f, "no claim is given"),
            Fault::NoNumber(place) => write!(f, "word {place} is no number"),
            Fault::TooLarge(place) => {
                write!(
                    f,
                    "word {place} is too large: an amount is at most 18446744073709551615, a claim at most 4294967295"
                )
            }
            Fault::Memory => write!(f, "out of memory"),
        }
    }
}

impl Error for Fault {}

/// Memory is wanting.
// Both conversions are by hand: a clause names the fault, and a derived one has no contract. They are two, as `std` has two errors of memory.
impl From<AllocError> for Fault {
    ghost from_gives = { λ _ r. r ≡ OfMemory };

    fn from(_e: AllocError) -> Fault {
        Fault::Memory
    }
}

/// Memory is wanting.
impl<T: Drop> From<AllocFailed<T>> for Fault {
    ghost from_gives = { λ _ r. r ≡ OfMemory };

    fn from(_e: AllocFailed<T>) -> Fault {
        Fault::Memory
    }
}

/// Answers a text: the table of the task that it asks, or the fault on account of which it asks none, or that memory is wanting.
pub fn divided(heap: Global, text: &[u8]) -> Result<String, Fault>
    ensures { Answers (answer_of text.now) string_bytes result }
{
    let task = read_task(heap, text)?;
    table(heap, &task).map_err(Fault::from)
}

/// Reads a task from the words of a text: the amount, at most 2^64 - 1, and then one claim or more, each at most 2^32 - 1.
/// Names the first word that is no number or is too large; where every word is good, says that the amount or the claims are missing. Or says
/// that memory is wanting.
pub fn read_task(heap: Global, text: &[u8]) -> Result<Task, Fault>
    ensures { Answers (task_of text.now) asked result }
{
    let (first, mut rest) = first_word(text).ok_or(Fault::NoAmount)?;
    let amount = number(first, 1, LARGEST_AMOUNT)?;
    let mut claims = Vec::new(heap);
    while let Some((word, after)) = first_word(rest) {
        let claim = number(word, claims.len() + 2, LARGEST_CLAIM)?;
        claims.push(claim as u32)?;
        rest = after;
    }
    if claims.is_empty() {
        return Err(Fault::NoClaim);
    }
    Ok(Task { amount, claims })
}

/// The table of a task: a line for each claimant with its claim and its gifts, by arrival and by turns, and the sums. Or says that memory is
/// wanting.
pub fn table(heap: Global, task: &Task) -> Result<String, AllocError>
    ensures { IfOk result (λ s. string_bytes s ≡ table_of (asked task.now)) }
{
    let arrival = gifts_by(heap, &ByArrival, task.amount, &task.claims)?;
    let turns = gifts_by(heap, &ByTurns, task.amount, &task.claims)?;
    table_by(heap, &task.claims, &arrival, &turns)
}
