// What is to be kept apart.

use crate::locations::Locations;
use crate::source::set_at;
use std::alloc::{AllocError, Global};

/// What is to be kept apart: numbers, by place; what comparisons tell, by their places; and all that is in slots that are touched in
/// another way than whole over R10.
#[derive(Drop)]
pub(crate) struct Demands {
    apart: Vec<Locations>,
    told: Vec<bool>,
    touched: Locations,
    is_fresh: bool,
}

impl Demands {
    /// Nothing is.
    pub(crate) fn none(alloc: Global, places: usize) -> Result<Demands, AllocError> {
        let apart = vec![in alloc; Locations::NONE; places]?;
        let told = vec![in alloc; false; places]?;
        Ok(Demands {
            apart,
            told,
            touched: Locations::NONE,
            is_fresh: false,
        })
    }

    /// The numbers that are kept apart at a place.
    pub(crate) fn apart_at(&self, place: u32) -> Locations {
        set_at(&self.apart, place)
    }

    /// Whether what the comparison at a place tells is kept.
    pub(crate) fn is_told(&self, place: u32) -> bool {
        (place as usize) < self.told.len() && self.told[place as usize]
    }

    /// The slots that are touched in another way.
    pub(crate) fn touched(&self) -> Locations {
        self.touched
    }

    /// Keeps these numbers apart at a place.
    pub(crate) fn keep_apart(&mut self, place: u32, numbers: Locations) {
        let before = self.apart_at(place);
        if (place as usize) < self.apart.len() && !numbers.without(before).is_none() {
            let after = before.with(numbers);
            self.apart[place as usize] = after;
            self.is_fresh = true;
        }
    }

    /// Keeps what the comparison at a place tells.
    pub(crate) fn tell(&mut self, place: u32) {
        if (place as usize) < self.told.len() && !self.told[place as usize] {
            self.told[place as usize] = true;
            self.is_fresh = true;
        }
    }

    /// These slots are touched in another way.
    pub(crate) fn touch(&mut self, slots: Locations) {
        if !slots.without(self.touched).is_none() {
            self.touched = self.touched.with(slots);
            self.is_fresh = true;
        }
    }

    /// Whether anything has been added since this was asked.
    pub(crate) fn take_fresh(&mut self) -> bool {
        let fresh = self.is_fresh;
        self.is_fresh = false;
        fresh
    }
}
