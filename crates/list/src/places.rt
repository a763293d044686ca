// What a list does to the places that it is lent, of which the first `count` hold its elements.
ghost use Rattle.std.specs.Prelude.{◌≡◌, ◌-◌, ◌<◌, ◌≤◌, ◌++◌, length, take, drop, slice_set};
ghost use Rattle.std.specs.List.{remove};

/// Writes `element` at `place`. No other place changes.
pub(crate) fn write<T: Copy>(places: &mut [T], place: usize, element: T)
    requires { place < length places.old }
    ensures after { places.new ≡ slice_set places.old place element }
{
    places[place] = element;
}

/// Moves the elements after `place` down by one, over the one at `place`. The last of the `count` places keeps what it held.
pub(crate) fn close_gap<T: Copy>(places: &mut [T], count: usize, place: usize)
    requires { (place < count) × (count ≤ length places.old) }
    ensures after { places.new ≡ remove (take count places.old) place ++ drop (count - 1) places.old }
    ensures items { take (count - 1) places.new ≡ remove (take count places.old) place }
{
    places.copy_within(place + 1..count, place);
}
