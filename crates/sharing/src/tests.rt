// The worked example, 250 over claims of 300, 50 and 200, and a refusal.
ghost use Rattle.std.specs.Prelude.{◌≡◌, [], ◌∷◌};

use crate::{ByArrival, ByTurns, Sharing, Unequal};

fn example_by<S: Sharing>(method: &S) -> [u32; 3]
    ensures value { result ≡ S.meaning method.now 250 (300 ∷ 50 ∷ 200 ∷ []) }
{
    let mut gifts = [7; 3];
    method.share(250, &[300, 50, 200], &mut gifts).unwrap();
    gifts
}

fn example_by_arrival() -> [u32; 3]
    ensures value { result ≡ 250 ∷ 0 ∷ 0 ∷ [] }
{
    example_by(&ByArrival)
}

fn example_by_turns() -> [u32; 3]
    ensures value { result ≡ 100 ∷ 50 ∷ 100 ∷ [] }
{
    example_by(&ByTurns)
}

#[test]
fn example(rt: HostRuntime) {
    assert_eq!(rt; example_by_arrival(), [250, 0, 0]);
    assert_eq!(rt; example_by_turns(), [100, 50, 100]);
}

#[test]
fn unequal(rt: HostRuntime) {
    let mut gifts = [7; 2];
    assert_eq!(rt;
        ByArrival.share(250, &[300, 50, 200], &mut gifts),
        Err(Unequal)
    );
    assert_eq!(rt;
        ByTurns.share(250, &[300, 50, 200], &mut gifts),
        Err(Unequal)
    );
    assert_eq!(rt; gifts, [7, 7]);
    assert_eq!(rt; Unequal.question(), 22);
}

#[test]
fn lots(rt: HostRuntime) {
    assert_eq!(rt; <ByArrival as Sharing>::lot_size(), 1);
    assert_eq!(rt; <ByTurns as Sharing>::lot_size(), 100);
}
