//! The slots.

ghost use Rattle.std.specs.Prelude.{◌≡◌, Some, None, IsSome, IsTrue, ◌↔◌, option_copied};

use crate::table::parcels::Parcel;
use std::marker::Model;
use std::mem::replace;

/// A slot of the table: a parcel, or nothing. While it is empty it keeps the box that it was given for
/// its last parcel, if there was one, for whoever fills it next.
#[derive(Drop)]
pub struct Slot<I> {
    full: bool,
    place: Option<Box<Parcel<I>>>,
}

impl<I> Model for Slot<I> {
    ghost use Rattle.std.specs.Prelude.{Option};
    ghost use Rattle.nm_chain.specs.declared.table.parcels.Parcel.{Parcel};
    ghost use Rattle.nm_chain.specs.Slots.{load_of};

    ghost Value = { Option (Parcel I) };

    ghost view = { λ s. load_of s.full s.place };
}

impl<I> Slot<I> {
    /// A slot with nothing.
    pub fn empty() -> Slot<I>
        ensures { result ≡ None }
    {
        Slot {
            full: false,
            place: None,
        }
    }

    /// Whether there is nothing.
    pub fn is_empty(&self) -> bool
        ensures { IsTrue result ↔ (self.now ≡ None) }
    {
        !self.full || self.place.is_none()
    }

    /// The parcel, if there is one.
    pub fn get(&self) -> Option<&Parcel<I>>
        ensures { option_copied result ≡ self.now }
    {
        if !self.full {
            return None;
        }
        let Some(place) = &self.place else {
            return None;
        };
        let parcel: &Parcel<I> = place;
        Some(parcel)
    }

    /// Puts a parcel in. It answers the box that was kept, if there was one.
    pub fn fill(&mut self, parcel: Box<Parcel<I>>) -> Option<Box<Parcel<I>>>
        ensures { self.new ≡ Some parcel.value }
    {
        self.full = true;
        replace(&mut self.place, Some(parcel))
    }

    /// Takes the parcel out, and keeps this box, if there is one.
    pub fn take(&mut self, spare: Option<Box<Parcel<I>>>) -> Box<Parcel<I>>
        requires { IsSome self.old }
        ensures parcel { self.old ≡ Some result.value }
        ensures empty { self.new ≡ None }
    {
        self.full = false;
        let Some(parcel) = replace(&mut self.place, spare) else {
            unreachable!()
        };
        parcel
    }
}
