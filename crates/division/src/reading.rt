// Words and numbers, as a text has them.
ghost use Rattle.std.specs.Prelude.{◌≡◌, ◌<◌, ◌≤◌, [], ◌∷◌, length, IfOk, IfSome, MatchOption};
ghost use Rattle.std.specs.List.{prefix_len, position, position_or_len};
ghost use Rattle.division.specs.Words.{blank, words};
ghost use Rattle.division.specs.Numbers.{digits, number_of};

use super::Fault;

/// The largest amount.
pub(crate) const LARGEST_AMOUNT: u64 = u64::MAX;

/// The largest claim.
pub(crate) const LARGEST_CLAIM: u64 = u32::MAX as u64;

/// Whether the byte stands between words.
fn is_blank(byte: &u8) -> bool
    ensures { result ≡ blank byte.now }
{
    matches!(byte, b' ' | b'\t' | b'\n' | b'\r')
}

/// How many blanks the text begins with.
fn gap_len(text: &[u8]) -> usize
    ensures value { result ≡ prefix_len blank text.now }
    ensures within { result ≤ length text.now }
{
    text.iter().take_while(|byte| is_blank(byte)).count()
}

/// The place of the first blank, or none.
fn first_blank(text: &[u8]) -> Option<usize>
    ensures value { result ≡ position blank text.now }
{
    text.iter().position(is_blank)
}

/// How many bytes come before the first blank, or, where there is none, how many the text has.
#[tactic(auto, using(crate::proofs::Words::first_or_all))]
fn word_len(text: &[u8]) -> usize
    ensures value { result ≡ position_or_len blank text.now }
    ensures within { result ≤ length text.now }
{
    first_blank(text).unwrap_or(text.len())
}

/// The first word of the text, and the text after it; or none, where the text has no word.
// By its two ends: `split` makes a part of each blank, and a text with long runs of blanks takes a third to a half as long again.
#[tactic(auto, using(crate::proofs::Words::no_word, crate::proofs::Words::word_cut, crate::proofs::Words::word_some))]
pub(crate) fn first_word(text: &[u8]) -> Option<(&[u8], &[u8])>
    ensures words { MatchOption result (words text.now ≡ []) (λ cut. words text.now ≡ cut.0.now ∷ words cut.1.now) }
    ensures shorter { IfSome result (λ cut. length cut.1.now < length text.now) }
{
    let (_, rest) = text.split_at(gap_len(text));
    if rest.is_empty() {
        return None;
    }
    Some(rest.split_at(word_len(rest)))
}

/// Whether each byte of the word is a digit.
fn is_digits(word: &[u8]) -> bool
    ensures { result ≡ digits word.now }
{
    word.iter().all(u8::is_ascii_digit)
}

/// The number that the word at this place writes.
/// Refuses a word that is not of digits alone, and a number above the limit.
#[tactic(auto, using(crate::proofs::Numbers::value_of_more), unfolding(crate::specs::Numbers::number_of))]
pub(crate) fn number(word: &[u8], place: usize, limit: u64) -> Result<u64, Fault>
    ensures value { result ≡ number_of limit place word.now }
    ensures bound { IfOk result (λ n. n ≤ limit) }
{
    if !is_digits(word) {
        return Err(Fault::NoNumber(place));
    }
    // A loop: `str::parse` refuses an empty word, whose number is 0 here, and so would ask for a premise; and a `try_fold` would have its two ends in a closure.
    let mut value: u64 = 0;
    for byte in word {
        let next = u128::from(value) * 10 + u128::from(*byte - b'0');
        if next > u128::from(limit) {
            return Err(Fault::TooLarge(place));
        }
        value = next as u64;
    }
    Ok(value)
}
