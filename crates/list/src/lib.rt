// A list over places that its owner lends: elements in order of arrival, and no memory of its own.
#![tactic(auto)]

ghost use Rattle.std.specs.Prelude.{◌≡◌, [], ◌∷◌, ◌++◌, length, is_some, if◌then◌else◌, Some, Ok, Err, nat_lt, ◌==◌, slice_set};
ghost use Rattle.std.specs.List.{slice_get, remove};
ghost use Rattle.std.specs.Option.{ok_or};
ghost use Rattle.list.specs.Held.{room, held, kept, full, no_place, no_element, no_place_text, no_element_text, opened, appended, written, without, emptied};

mod places;

use places::{close_gap, write};
use std::error::Error;
use std::fmt;

/// The most elements that a list holds, however many places it is lent.
pub const MOST: usize = 4096;

/// No place is left.
#[derive(Clone, Copy, PartialEq, Eq, Debug)]
pub struct Full;

/// The ground of the refusal, in words.
// By hand: a derived text has no contract.
impl fmt::Display for Full {
    ghost output = { λ _. Some no_place_text };

    ghost styled_output = { λ _ _. Some no_place_text };

    fn fmt<W: fmt::Write>(&self, f: &mut fmt::Formatter<W>) -> fmt::Result {
        f.write_str("no place is left")
    }
}

impl Error for Full {}

/// There is no element at that place.
#[derive(Clone, Copy, PartialEq, Eq, Debug)]
pub struct Absent;

/// The ground of the refusal, in words.
impl fmt::Display for Absent {
    ghost output = { λ _. Some no_element_text };

    ghost styled_output = { λ _ _. Some no_element_text };

    fn fmt<W: fmt::Write>(&self, f: &mut fmt::Formatter<W>) -> fmt::Result {
        f.write_str("there is no element at that place")
    }
}

impl Error for Absent {}

/// Elements in order of arrival, in places that are lent. Whatever its count says, a list holds no more elements than it has
/// places, and at most 4,096.
// A lent slice with a count, which `len` bounds (docs/DECISIONS.md, "Forms that are fixed"): of a type with a ghost field no equation could say
// the whole list after a call. No `Debug`, which would print places that hold no element.
#[derive(Drop)]
pub struct List<'a, T> {
    places: &'a mut [T],
    count: usize,
}

impl<'a, T: Copy> List<'a, T> {
    /// An empty list over `places`, which keep what they hold.
    pub fn new(places: &'a mut [T]) -> List<'a, T>
        ensures value { result ≡ opened places.entry }
        ensures items { kept result ≡ [] }
    {
        List { places, count: 0 }
    }

    /// How many elements the list holds: never more than it has places, nor than 4,096.
    pub fn len(&self) -> usize
        ensures value { result ≡ held self.now }
    {
        self.count.min(self.capacity())
    }

    /// Whether the list holds no element.
    pub fn is_empty(&self) -> bool
        ensures value { result ≡ (held self.now == 0) }
    {
        self.len() == 0
    }

    /// How many elements the list can hold: as many as it has places, and at most 4,096.
    pub fn capacity(&self) -> usize
        ensures value { result ≡ room self.now }
    {
        self.places.len().min(MOST)
    }

    /// Whether no place is left.
    pub fn is_full(&self) -> bool
        ensures value { result ≡ full self.now }
    {
        self.len() >= self.capacity()
    }

    /// The elements, in order of arrival.
    pub fn elements(&self) -> &[T]
        ensures value { result.now ≡ kept self.now }
        ensures len { length result.now ≡ held self.now }
    {
        let held = self.len();
        &self.places[0..held]
    }

    /// The element at `place`, counted from 0, or none.
    pub fn get(&self, place: usize) -> Option<T>
        ensures value { result ≡ slice_get (kept self.now) place }
        ensures test { is_some result ≡ nat_lt place (held self.now) }
    {
        self.elements().get(place).copied()
    }

    /// Appends `element` at the end, in the first free place; no other place changes. Refuses, and changes nothing, when no place is left.
    pub fn push(&mut self, element: T) -> Result<(), Full>
        ensures value { result ≡ (if full self.old then Err no_place else Ok tt) }
        ensures after { self.new ≡ (if full self.old then self.old else appended self.old element) }
        ensures items { kept self.new ≡ (if full self.old then kept self.old else kept self.old ++ element ∷ []) }
    {
        if self.is_full() {
            return Err(Full);
        }
        let held = self.len();
        write(self.places, held, element);
        self.count = held + 1;
        Ok(())
    }

    /// Writes the element at `place` back whole; no other place changes. Refuses, and changes nothing, when there is none.
    pub fn put(&mut self, place: usize, element: T) -> Result<(), Absent>
        ensures value { result ≡ (if nat_lt place (held self.old) then Ok tt else Err no_element) }
        ensures after { self.new ≡ (if nat_lt place (held self.old) then written self.old place element else self.old) }
        ensures items { kept self.new ≡ (if nat_lt place (held self.old) then slice_set (kept self.old) place element else kept self.old) }
    {
        let held = self.len();
        if place >= held {
            return Err(Absent);
        }
        write(self.places, place, element);
        Ok(())
    }

    /// Takes the element at `place` out, answers it, and moves the later ones down by one. The place that is freed keeps what it held, and so do
    /// those after it. Refuses, and changes nothing, when there is no such element.
    pub fn remove(&mut self, place: usize) -> Result<T, Absent>
        ensures value { result ≡ ok_or (slice_get (kept self.old) place) no_element }
        ensures after { self.new ≡ (if nat_lt place (held self.old) then without self.old place else self.old) }
        ensures items { kept self.new ≡ (if nat_lt place (held self.old) then remove (kept self.old) place else kept self.old) }
    {
        let element = self.get(place).ok_or(Absent)?;
        let held = self.len();
        close_gap(self.places, held, place);
        self.count = held - 1;
        Ok(element)
    }

    /// Empties the list. Every place keeps what it held.
    pub fn clear(&mut self)
        ensures after { self.new ≡ emptied self.old }
        ensures items { kept self.new ≡ [] }
    {
        self.count = 0;
    }
}

#[cfg(test)]
mod tests;
