// Texts, each with its table or the words for its fault.
use division::divided;
use std::alloc::{AllocError, Global};
use std::test::Fail;

const NO_AMOUNT: &str = "no amount is given";

const LARGE_AMOUNT: &str =
    "word 1 is too large: an amount is at most 18446744073709551615, a claim at most 4294967295";

const TABLE: &str = "                   claim     arrival       turns
           1         300         250         100
           2          50           0          50
           3         200           0         100
         sum         550         250         250
";

const CASES: [(&str, &str); 11] = [
    ("", NO_AMOUNT),
    (" \t\r\n", NO_AMOUNT),
    ("250", "no claim is given"),
    ("x 300", "word 1 is no number"),
    ("250 300 +5 y", "word 3 is no number"),
    ("123456789012345678901234567890x 1", "word 1 is no number"),
    ("123456789012345678901234567890 1", LARGE_AMOUNT),
    ("18446744073709551616 1", LARGE_AMOUNT),
    (
        "18446744073709551615 4294967295 4294967296",
        "word 3 is too large: an amount is at most 18446744073709551615, a claim at most 4294967295",
    ),
    ("250 300 50 200", TABLE),
    ("\n0250\t300\r\n  50 000000000000000000000000000200", TABLE),
];

fn answer(heap: Global, text: &str) -> Result<String, AllocError> {
    divided(heap, text.as_bytes()).or_else(|fault| format!(in heap; "{fault}"))
}

#[test]
fn answers(rt: HostRuntime) -> Result<(), Fail> {
    for (text, wanted) in CASES {
        assert_eq!(rt; answer(rt.alloc(), text)?.as_str(), wanted, "{}", text);
    }
    Ok(())
}
