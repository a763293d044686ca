// The look-up of an order by its number.
ghost use Rattle.std.specs.Prelude.{◌≡◌, ◌+◌, ◌*◌, ◌<◌, ◌≤◌, length, drop, IfSome};
ghost use Rattle.std.specs.Option.{option_map};
ghost use Rattle.list.specs.Held.{held, kept};
ghost use Rattle.book.specs.Listing.{place_of};

use list::List;
use order::{Order, Row};

/// The place of the first order of this number, counted from 0, or none. Rows that fail their check are passed over.
pub fn find(rows: &List<Row>, number: u32) -> Option<usize>
    ensures value { result ≡ place_of number (kept rows.now) }
    ensures within { IfSome result (λ place. place < held rows.now) }
{
    let rows = rows.elements();
    let passed = 3 * threes_without(rows, number);
    let more = place_in(&rows[passed..], number)?;
    Some(passed + more)
}

/// How many threes of rows, one after another from the first on, have no row of this number; later ones may have none either.
// Most calls look through the whole list, and by threes it takes half the time. It is out of line, as its loop is fast only where no branch of it
// lies across 32 bytes of code.
#[inline(never)]
fn threes_without(rows: &[Row], number: u32) -> usize
    ensures value { place_of number rows.now ≡ option_map (λ more. 3 * result + more) (place_of number (drop (3 * result) rows.now)) }
    ensures within { 3 * result ≤ length rows.now }
{
    let (threes, _) = rows.as_chunks::<3>();
    let mut passed = 0;
    for [first, second, third] in threes {
        if first.number == number || second.number == number || third.number == number {
            break;
        }
        passed += 1;
    }
    passed
}

/// The place of the first order of this number in rows.
fn place_in(rows: &[Row], number: u32) -> Option<usize>
    ensures value { result ≡ place_of number rows.now }
    ensures within { IfSome result (λ place. place < length rows.now) }
{
    rows.iter().position(|row| row.number == number && Order::try_from(*row).is_ok())
}
