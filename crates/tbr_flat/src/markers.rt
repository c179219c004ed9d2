//! Where markers are among characters.
ghost use Rattle.std.specs.Prelude.{◌≡◌, ◌≤◌, ◌<◌, ◌+◌, ◌-◌, ◌^◌, ◌++◌, ◌∷◌, ◌⊎◌, [], ℕ, List, length, map, string_bytes, OnOk, OnErr, MatchOption, IsTrue, ◌↔◌};
ghost use Rattle.std.specs.VecDeque.Iter.{deque_iter_rest};
ghost use Rattle.tbr_flat.specs.Walk.{places_of};
ghost use Rattle.tbr_flat.specs.Flat.{MarkerPlaces, before_first, shortened, followed};

use std::alloc::Global;
use std::collections::VecDeque;
use std::collections::vec_deque::Iter;
use std::marker::Model;
use tbr_tagged::OutOfMemory;

/// A marker.
#[derive(Drop)]
pub struct Marker {
    /// How many characters are between the marker before it and this one.
    pub before: usize,
    pub name: String,
}

/// Markers among characters.
///
/// A contract sees how many characters come before each marker, its name, and how many come after the last one.
#[derive(Drop)]
pub struct Markers {
    markers: VecDeque<Marker>,
    after: usize,
}

impl Model for Markers {
    ghost use Rattle.std.specs.Prelude.{◌≡◌, map, length, string_bytes};
    ghost use Rattle.std.specs.VecDeque.{deque_len};
    ghost use Rattle.tbr_flat.specs.Flat.{MarkerPlaces};

    ghost Value = { MarkerPlaces };

    ghost view = { λ a. record {
      markers = map (λ m. (m.before, string_bytes m.name)) a.markers.items;
      after = a.after;
    } };

    ghost invariant = { λ a. deque_len a.markers ≡ length a.markers.items };
}

impl Markers {
    /// No markers among no characters. It takes no memory.
    pub fn new(alloc: Global) -> Markers
        ensures { result ≡ record { markers = []; after = 0 } }
    {
        Markers {
            markers: VecDeque::new(alloc),
            after: 0,
        }
    }

    /// How many markers there are.
    pub fn len(&self) -> usize
        ensures { result ≡ length self.now.markers }
    {
        self.markers.len()
    }

    /// The markers in order.
    pub fn iter(&self) -> Iter<'_, Marker>
        ensures { places_of (deque_iter_rest result) ≡ map (λ m. m.0) self.now.markers }
    {
        self.markers.iter()
    }

    /// How many characters come after the last marker, or how many there are if there is no marker.
    pub fn after(&self) -> usize
        ensures { result ≡ self.now.after }
    {
        self.after
    }

    /// How many characters come before the first marker, or how many there are if there is no marker.
    pub fn before(&self) -> usize
        ensures { result ≡ before_first self.now }
    {
        match self.markers.front() {
            Some(marker) => marker.before,
            None => self.after,
        }
    }

    /// Whether a marker comes before all characters.
    pub fn begins_with_marker(&self) -> bool
        ensures { IsTrue result ↔ ((name : List ℕ) × (rest : List (ℕ × List ℕ))
            × (self.now.markers ≡ (0, name) ∷ rest)) }
    {
        match self.markers.front() {
            Some(marker) => marker.before == 0,
            None => false,
        }
    }

    /// Notes `count` more characters after the last marker. If these would pass `usize`, it refuses and changes
    /// nothing.
    pub fn add_characters(&mut self, count: usize) -> Result<(), OutOfMemory>
        ensures ok { OnOk result (self.new ≡ record self.old { after = self.old.after + count }) }
        ensures err { OnErr result (self.new ≡ self.old) }
        ensures passes { OnErr result (2 ^ 64 ≤ self.old.after + count) }
    {
        let Some(after) = self.after.checked_add(count) else {
            return Err(OutOfMemory);
        };
        self.after = after;
        Ok(())
    }

    /// Notes a marker after all characters. If memory is refused, it changes nothing.
    pub fn push(&mut self, name: String) -> Result<(), OutOfMemory>
        ensures ok { OnOk result (self.new
            ≡ record { markers = self.old.markers ++ (self.old.after, string_bytes name) ∷ []; after = 0 }) }
        ensures err { OnErr result (self.new ≡ self.old) }
    {
        let before = self.after;
        self.markers.push_back(Marker { before, name })?;
        self.after = 0;
        Ok(())
    }

    /// Notes a marker before all characters. If memory is refused, it changes nothing.
    pub fn push_first(&mut self, name: String) -> Result<(), OutOfMemory>
        ensures ok { OnOk result (self.new ≡ record self.old { markers = (0, string_bytes name) ∷ self.old.markers }) }
        ensures err { OnErr result (self.new ≡ self.old) }
    {
        self.markers.push_front(Marker { before: 0, name })?;
        Ok(())
    }

    /// Takes the first marker, if it comes before all characters.
    pub fn pop_first(&mut self) -> Option<String>
        ensures { MatchOption result
            ((self.new ≡ self.old)
            × ((name : List ℕ) (rest : List (ℕ × List ℕ)) → self.old.markers ≡ (0, name) ∷ rest → ⊥))
            (λ name. (rest : List (ℕ × List ℕ)) × (self.old.markers ≡ (0, string_bytes name) ∷ rest)
            × (self.new ≡ record self.old { markers = rest })) }
    {
        if !self.begins_with_marker() {
            return None;
        }
        let marker = self.markers.pop_front()?;
        Some(marker.name)
    }

    /// Takes the last marker, if no character comes after it.
    pub fn pop_last(&mut self) -> Option<String>
        ensures { MatchOption result ((self.new ≡ self.old) × ((0 < self.old.after) ⊎ (self.old.markers ≡ [])))
            (λ name. (front : List (ℕ × List ℕ)) × (n : ℕ)
            × (self.old ≡ record { markers = front ++ (n, string_bytes name) ∷ []; after = 0 })
            × (self.new ≡ record { markers = front; after = n })) }
    {
        if self.after > 0 {
            return None;
        }
        let marker = self.markers.pop_back()?;
        self.after = marker.before;
        Some(marker.name)
    }

    /// Removes the last `count` characters, which come after the last marker.
    pub fn remove_last(&mut self, count: usize)
        requires { count ≤ self.old.after }
        ensures { self.new ≡ record self.old { after = self.old.after - count } }
    {
        self.after -= count;
    }

    /// Removes the first `count` characters, which come before the first marker.
    pub fn remove_first(&mut self, count: usize)
        requires { count ≤ before_first self.old }
        ensures { self.new ≡ shortened count self.old }
    {
        match self.markers.front_mut() {
            Some(marker) => marker.before -= count,
            None => self.after -= count,
        }
    }

    /// Notes the characters and markers of another list after its own. If memory is refused, markers may be lost.
    pub fn append(&mut self, other: &mut Markers) -> Result<(), OutOfMemory>
        ensures ok { OnOk result ((self.new ≡ followed self.old other.old)
            × (other.new ≡ record { markers = []; after = 0 })) }
    {
        if let Some(first) = other.markers.pop_front() {
            self.add_characters(first.before)?;
            self.push(first.name)?;
            self.markers.append(&mut other.markers)?;
        }
        self.add_characters(other.after)?;
        other.after = 0;
        Ok(())
    }

    /// Forgets all characters and markers.
    pub fn clear(&mut self)
        ensures { self.new ≡ record { markers = []; after = 0 } }
    {
        self.markers.clear();
        self.after = 0;
    }
}
