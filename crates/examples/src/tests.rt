// The code run on examples: reference prices, imbalances, refusals and their texts, a row that fails its check, a whole life, and a file with its tapes.
ghost use Rattle.std.specs.Prelude.{None, true};

use book::{FillFault, Unfillable, fill, imbalance_at};
use life::{TooFewPlaces, live};
use line::Line;
use list::List;
use message::{FileFault, MessageFault};
use order::{Kind, Quote, Row, Sale, Side, Terms, Tick, Ticket, reference_price};
use player::play_between;
use session::{Call, Notice, Outcome, Print, SessionFault};
use sharing::{ByArrival, ByTurns, Unequal};
use std::alloc::{AllocError, Global};
use std::io;
use std::io::ErrorKind;
use std::test::Fail;
use tape::{Memory, Reader, Run, Sink, Source, Trouble, Writer, play_in_memory};

const TERMS: Terms = Terms {
    price: 1500,
    sale: Sale {
        price: 1500,
        tick: Tick::Plus,
    },
};

#[test]
fn reference_prices(rt: HostRuntime) {
    for (bid, offer, wanted) in [
        (1502, 1520, 1502),
        (1491, 1499, 1499),
        (1498, 1502, 1500),
        (0, 0, 1500),
    ] {
        assert_eq!(rt; reference_price(1500, Quote { bid, offer }), wanted);
    }
}

#[test]
fn imbalances(rt: HostRuntime) -> Result<(), Fail> {
    for (larger, smaller, limit, wanted) in [
        (Side::Buy, Side::Sell, 4_950, 50_100),
        (Side::Buy, Side::Sell, 5_100, 49_900),
        (Side::Sell, Side::Buy, 4_950, -50_100),
        (Side::Sell, Side::Buy, 99_900, 0),
    ] {
        let mut places = [Row::unfilled(1, Kind::MarketOnClose, larger, false, 0, 60_099); 3];
        let mut rows = List::new(&mut places);
        rows.push(Row::unfilled(1, Kind::MarketOnClose, larger, false, 0, 60_099))?;
        rows.push(Row::unfilled(1, Kind::MarketOnClose, smaller, false, 0, 5_000))?;
        rows.push(Row::unfilled(1, Kind::LimitOnClose, smaller, false, 1500, limit))?;
        assert_eq!(rt; imbalance_at(&rows, TERMS), wanted);
    }
    Ok(())
}

#[test]
fn refusals(rt: HostRuntime) -> Result<(), Fail> {
    let mut places = [Row::unfilled(1, Kind::MarketOnClose, Side::Buy, false, 0, 100); 1];
    let mut rows = List::new(&mut places);
    assert_eq!(rt; fill(&mut rows, TERMS, &ByArrival, &mut [], &mut []), Ok(0));
    rows.push(Row::unfilled(1, Kind::MarketOnClose, Side::Buy, false, 0, 100))?;
    let mut gifts = [7];
    let refused = fill(&mut rows, TERMS, &ByArrival, &mut [], &mut gifts);
    assert_eq!(rt; refused, Err(FillFault::NoPlace));
    assert_eq!(rt; FillFault::NoPlace.question(), 20);
    let mut claims = [8];
    let refused = fill(&mut rows, TERMS, &ByArrival, &mut claims, &mut gifts);
    assert_eq!(rt; refused, Err(FillFault::Unfillable));
    assert_eq!(rt; FillFault::Unfillable.question(), 21);
    assert_eq!(rt; (Unfillable.question(), Unequal.question()), (21, 22));
    assert_eq!(rt; (claims[0], gifts[0]), (8, 7));
    Ok(())
}

// A refusal that a file carries prints the text of the innermost.
#[test]
fn texts(rt: HostRuntime) -> Result<(), Fail> {
    let carried = FileFault::Message(MessageFault::Session(SessionFault::Unequal));
    let text = format!(in rt.alloc(); "{carried}; {TooFewPlaces}")?;
    assert_eq!(rt;
        text.as_str(),
        "claims and gifts are not equally long; there are fewer places for answers than calls"
    );
    Ok(())
}

// The second row has more filled than its size, so it is no order: it keeps its place, its claim is 0, and it is left as it is.
#[test]
fn row_that_fails_its_check(rt: HostRuntime) -> Result<(), Fail> {
    let wrong = Row {
        filled: 101,
        ..Row::unfilled(1, Kind::MarketOnClose, Side::Sell, false, 0, 100)
    };
    let mut places = [wrong; 3];
    let mut rows = List::new(&mut places);
    rows.push(Row::unfilled(1, Kind::MarketOnClose, Side::Buy, false, 0, 100))?;
    rows.push(wrong)?;
    rows.push(Row::unfilled(1, Kind::Book, Side::Sell, false, 1500, 300))?;
    let mut claims = [9; 4];
    let mut gifts = [9; 4];
    let volume = fill(&mut rows, TERMS, &ByArrival, &mut claims, &mut gifts);
    assert_eq!(rt; volume, Ok(100));
    assert!(rt; claims == [0, 0, 300, 9]);
    assert!(rt; gifts == [0, 0, 100, 9]);
    for (row, filled) in rows.elements().iter().zip([100, 101, 100]) {
        assert_eq!(rt; row.filled, filled);
    }
    Ok(())
}

fn entry(number: u32, kind: Kind, side: Side, marked: bool, price: u32, size: u32) -> Call {
    Call::Entry(Ticket {
        number,
        kind,
        side,
        marked,
        price,
        size,
    })
}

// The sample life of the table: refused with one place too few for the answers, and then lived.
#[test]
fn whole_life(rt: HostRuntime) {
    let calls = [
        Call::Sale(1999),
        Call::Sale(2000),
        entry(1, Kind::MarketOnClose, Side::Buy, false, 0, 1000),
        entry(2, Kind::MarketOnClose, Side::Sell, true, 0, 300),
        entry(3, Kind::LimitOnClose, Side::Sell, false, 2002, 500),
        entry(4, Kind::ClosingOffset, Side::Sell, false, 2002, 400),
        Call::Cancel {
            number: 9,
            in_error: false,
        },
        Call::Time(57_600),
        Call::Close(2001),
        Call::Close(2002),
    ];
    let print = Print {
        price: 2002,
        volume: 1000,
    };
    let mut places = [Row::unfilled(0, Kind::Crowd, Side::Buy, false, 0, 0); 6];
    let mut orders = List::new(&mut places);
    let mut notice_places = [Notice {
        amount: 0,
        reference: 0,
        mandatory: false,
    }; 6];
    let mut notices = List::new(&mut notice_places);
    let mut claims = [0; 6];
    let mut gifts = [0; 6];
    let mut answers = [Err(SessionFault::Done); 10];
    for (room, wanted) in [(9, Err(TooFewPlaces)), (10, Ok(true))] {
        let lived = live(
            &mut orders,
            &mut notices,
            &ByArrival,
            &mut claims,
            &mut gifts,
            &calls,
            &mut answers[..room],
        );
        assert_eq!(rt; lived.map(|session| session.is_done()), wanted);
    }
    for (place, answer) in answers.iter().enumerate() {
        let wanted = match place {
            6 => Err(SessionFault::Unlisted),
            8 => Err(SessionFault::Unfillable),
            9 => Ok(Outcome::Printed(print)),
            _ => Ok(Outcome::Taken),
        };
        assert_eq!(rt; *answer, wanted, "at {place}");
    }
    assert_eq!(rt; orders.len(), 4);
    for (row, filled) in orders.elements().iter().zip([1000, 300, 500, 200]) {
        assert_eq!(rt; row.filled, filled);
    }
}

// The sample file of the table: the letters of each message, its flag, and its number, price and quantity.
const SAMPLE: [(&[u8; 3], u8, [u32; 3]); 10] = [
    (b"S\0\0", 0, [0, 1999, 0]),
    (b"S\0\0", 0, [0, 2000, 0]),
    (b"EMB", 0, [1, 0, 1000]),
    (b"EMS", 1, [2, 0, 300]),
    (b"ELS", 0, [3, 2002, 500]),
    (b"EOS", 0, [4, 2002, 400]),
    (b"X\0\0", 0, [9, 0, 0]),
    (b"T\0\0", 0, [0, 0, 57_600]),
    (b"C\0\0", 0, [0, 2001, 0]),
    (b"C\0\0", 0, [0, 2002, 0]),
];

// Its tapes, one after another: by arrival, and by turns.
const TAPES: &str = "U 1
R 7 3 10
R 9 3 21
P 2002 1000
F 1 B 1000 0
F 2 S 300 0
F 3 S 500 0
F 4 S 200 200
U 100
R 7 3 10
R 9 3 21
P 2002 1000
F 1 B 1000 0
F 2 S 300 0
F 3 S 500 0
F 4 S 200 200
";

/// The bytes of the sample file.
fn sample_file(heap: Global) -> Result<Vec<u8>, AllocError> {
    let mut file = Vec::new(heap);
    file.extend_from_slice(b"CLO\0\x01")?;
    for (letters, flag, numbers) in SAMPLE {
        file.extend_from_slice(letters)?;
        file.push(flag)?;
        for number in numbers {
            file.extend_from_slice(&number.to_be_bytes())?;
        }
    }
    Ok(file)
}

const NO_ORDER: Row = Row {
    number: 0,
    kind: Kind::Crowd,
    side: Side::Buy,
    marked: false,
    price: 0,
    size: 0,
    filled: 0,
};

const NO_NOTICE: Notice = Notice {
    amount: 0,
    reference: 0,
    mandatory: false,
};

// Both tapes in memory; and no more than a beginning where there is no place for the whole.
#[test]
fn tapes_in_memory(rt: HostRuntime) -> Result<(), Fail> {
    let file = sample_file(rt.alloc())?;
    let (mut order_places, mut notice_places) = ([NO_ORDER; 6], [NO_NOTICE; 6]);
    let mut orders = List::new(&mut order_places);
    let mut notices = List::new(&mut notice_places);
    let (mut claims, mut gifts) = ([0; 6], [0; 6]);
    let mut bytes = [0; 512];
    let mut output = Memory::new(&mut bytes);
    let arrival = play_in_memory(
        &file,
        &mut output,
        &mut orders,
        &mut notices,
        &ByArrival,
        &mut claims,
        &mut gifts,
    );
    let turns = play_in_memory(
        &file,
        &mut output,
        &mut orders,
        &mut notices,
        &ByTurns,
        &mut claims,
        &mut gifts,
    );
    assert!(rt; arrival.is_ok() && turns.is_ok());
    assert!(rt; output.written() == TAPES.as_bytes());
    assert_eq!(rt; orders.len(), 4);
    for (row, filled) in orders.elements().iter().zip([1000, 300, 500, 200]) {
        assert_eq!(rt; row.filled, filled);
    }
    let mut few = [0; 9];
    let mut output = Memory::new(&mut few);
    let stopped = play_in_memory(
        &file,
        &mut output,
        &mut orders,
        &mut notices,
        &ByArrival,
        &mut claims,
        &mut gifts,
    );
    assert!(rt; matches!(stopped, Err(Trouble::Output(_))));
    assert!(rt; output.written() == "U 1\nR 7 3".as_bytes());
    Ok(())
}

// A run that is offered seven bytes at a time; after the P line each call answers an F line and takes no byte.
#[test]
fn lines_one_by_one(rt: HostRuntime) -> Result<(), Fail> {
    let file = sample_file(rt.alloc())?;
    let (mut order_places, mut notice_places) = ([NO_ORDER; 6], [NO_NOTICE; 6]);
    let mut orders = List::new(&mut order_places);
    let mut notices = List::new(&mut notice_places);
    let (mut claims, mut gifts) = ([0; 6], [0; 6]);
    let mut run = Run::open(&mut orders, &mut notices);
    let mut tape = Vec::new(rt.alloc());
    let mut rest = file.as_slice();
    for _ in 0..100 {
        let piece = &rest[..rest.len().min(7)];
        let next = run.advance(
            &mut orders,
            &mut notices,
            &ByArrival,
            &mut claims,
            &mut gifts,
            piece,
        );
        rest = &rest[next.taken..];
        if let Some(line) = next.line {
            let fills = matches!(line, Line::Fill { .. });
            assert!(rt; !fills || next.taken == 0);
            tape.extend_from_slice(line.text().as_str().as_bytes())?;
        }
    }
    assert!(rt; rest.is_empty());
    assert!(rt; run.finish(&orders).is_none());
    assert!(rt; run.is_over());
    assert!(rt; TAPES.as_bytes().starts_with(&tape));
    assert_eq!(rt; tape.len(), 85);
    Ok(())
}

/// An input that is interrupted before each read, brings seven bytes at a time, and fails after `left` bytes.
#[derive(Drop)]
struct Failing<'a> {
    rest: &'a [u8],
    left: usize,
    interrupts: bool,
}

impl Source for Failing<'_> {
    ghost input = { λ _. record { bytes = None; may_fail = true } };

    fn read(&mut self, piece: &mut [u8]) -> io::Result<usize> {
        self.interrupts = !self.interrupts;
        if self.interrupts {
            return Err(io::Error::from(ErrorKind::Interrupted));
        }
        if self.left == 0 {
            return Err(io::Error::from(ErrorKind::BrokenPipe));
        }
        let count = piece.len().min(7).min(self.left).min(self.rest.len());
        piece[..count].copy_from_slice(&self.rest[..count]);
        self.rest = &self.rest[count..];
        self.left -= count;
        Ok(count)
    }
}

/// An output that is interrupted before each write, takes three bytes at a time, and fails after `left` bytes.
#[derive(Drop)]
struct Choking {
    taken: [u8; 200],
    count: usize,
    left: usize,
    interrupts: bool,
}

impl Sink for Choking {
    ghost output = { λ _. record { bytes = None; room = None } };

    fn write(&mut self, bytes: &[u8]) -> io::Result<usize> {
        self.interrupts = !self.interrupts;
        if self.interrupts {
            return Err(io::Error::from(ErrorKind::Interrupted));
        }
        if self.left == 0 {
            return Err(io::Error::from(ErrorKind::BrokenPipe));
        }
        let free = self.taken.len().saturating_sub(self.count);
        let count = bytes.len().min(3).min(self.left).min(free);
        let end = self.count.saturating_add(count);
        if let Some(places) = self.taken.get_mut(self.count..end) {
            places.copy_from_slice(&bytes[..count]);
        }
        self.count = end;
        self.left -= count;
        Ok(count)
    }

    fn flush(&mut self) -> io::Result<()> {
        Ok(())
    }
}

// Interrupted reads and writes go on; a read or a write that fails is told as what it is, and what was due before is written.
#[test]
fn ends_that_fail(rt: HostRuntime) -> Result<(), Fail> {
    let file = sample_file(rt.alloc())?;
    // The bytes that the input brings and the output takes, whether the input or the output fails, and how much is written.
    for (brings, takes, input_fails, output_fails, written) in [
        (1000, 1000, false, false, 85),
        (117, 1000, true, false, 13),
        (1000, 20, false, true, 20),
        (2, 0, true, false, 0),
    ] {
        let mut input = Failing {
            rest: &file,
            left: brings,
            interrupts: false,
        };
        let mut output = Choking {
            taken: [0; 200],
            count: 0,
            left: takes,
            interrupts: false,
        };
        let played = play_between(&mut input, &mut output, &ByArrival);
        assert_eq!(rt; matches!(played, Err(Trouble::Input(_))), input_fails);
        assert_eq!(rt; matches!(played, Err(Trouble::Output(_))), output_fails);
        assert_eq!(rt; output.count, written);
        assert!(rt; TAPES.as_bytes().starts_with(&output.taken[..written]));
    }
    Ok(())
}

// Between a reader and a writer of the library, on the places of a program.
#[test]
fn tapes_between_library_ends(rt: HostRuntime) -> Result<(), Fail> {
    let file = sample_file(rt.alloc())?;
    let mut output = Writer(Vec::new(rt.alloc()));
    let arrival = play_between(&mut Reader(file.as_slice()), &mut output, &ByArrival);
    let turns = play_between(&mut Reader(file.as_slice()), &mut output, &ByTurns);
    assert!(rt; arrival.is_ok() && turns.is_ok());
    assert!(rt; output.0.as_slice() == TAPES.as_bytes());
    Ok(())
}
