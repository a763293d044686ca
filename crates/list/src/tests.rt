// A list at two types of element, and what its owner finds in the places once the list is gone.
ghost use Rattle.std.specs.Prelude.{◌≡◌, [], ◌∷◌};

use crate::{Absent, Full, List};

#[derive(Clone, Copy, PartialEq, Eq, Debug)]
struct Mark {
    number: u32,
    flagged: bool,
}

#[test]
fn numbers(rt: HostRuntime) {
    let mut places = [0u32; 2];
    let mut list = List::new(&mut places);
    assert_eq!(rt; list.push(5), Ok(()));
    assert_eq!(rt; list.push(6), Ok(()));
    assert_eq!(rt; list.push(7), Err(Full));
    assert_eq!(rt; list.remove(0), Ok(5));
    assert_eq!(rt; list.push(8), Ok(()));
    assert!(rt; list.elements() == [6, 8].as_slice());
}

#[test]
fn marks(rt: HostRuntime) {
    let mark = Mark {
        number: 1,
        flagged: false,
    };
    let mut places = [mark; 1];
    let mut list = List::new(&mut places);
    assert_eq!(rt; list.put(0, mark), Err(Absent));
    assert_eq!(rt; list.push(mark), Ok(()));
    let raised = Mark {
        flagged: true,
        ..mark
    };
    assert_eq!(rt; list.put(0, raised), Ok(()));
    assert_eq!(rt; list.get(0), Some(raised));
}

#[test]
fn most(rt: HostRuntime) {
    let mut places = [0u8; 5000];
    assert_eq!(rt; List::new(&mut places).capacity(), 4096);
}

// The places of an owner whose list took in 7 and 8 and let 7 go: 8 moved down, and the freed place still holds it.
fn left_behind() -> [u32; 3]
    ensures value { result ≡ 8 ∷ 8 ∷ 3 ∷ [] }
{
    let mut places = [1, 2, 3];
    {
        let mut list = List::new(&mut places);
        list.push(7).unwrap();
        list.push(8).unwrap();
        list.remove(0).unwrap();
    }
    places
}

#[test]
fn freed_place_keeps(rt: HostRuntime) {
    assert_eq!(rt; left_behind(), [8, 8, 3]);
}
