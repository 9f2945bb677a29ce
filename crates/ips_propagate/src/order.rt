//! Stems by activity: how often they had a part in a conflict of late.

use crate::numbers::{NONE, at, filled, put};
use std::alloc::Global;

// Where activities are made smaller.
const HIGH: u64 = 1 << 60;

/// A heap of stems, the most active first, those of equal activity in their order.
#[derive(Drop)]
pub struct Order {
    heap: Vec<u32>,
    count: u32,
    places: Vec<u32>,
    activity: Vec<u64>,
    step: u64,
}

impl Order {
    /// Without stems.
    pub fn new(alloc: Global) -> Order {
        Order {
            heap: Vec::new(alloc),
            count: 0,
            places: Vec::new(alloc),
            activity: Vec::new(alloc),
            step: 1024,
        }
    }

    /// Takes so many stems, all of them in the heap; false where there is no room.
    pub fn lay_out(&mut self, stems: u32) -> bool {
        let count = stems as usize;
        let fits = filled(&mut self.heap, count, NONE)
            && filled(&mut self.places, count, NONE)
            && self.activity.resize(count, 0).is_ok();
        for stem in 0..stems {
            self.push(stem);
        }
        fits
    }

    /// Puts a stem into the heap, where it isn't there.
    pub fn push(&mut self, stem: u32) {
        if at(&self.places, stem) != NONE {
            return;
        }
        let place = self.count;
        self.set(place, stem);
        self.count = place.saturating_add(1);
        self.rise(place);
    }

    /// Takes the first stem out of the heap.
    pub fn pop(&mut self) -> Option<u32> {
        let last = self.count.checked_sub(1)?;
        let first = at(&self.heap, 0);
        let moved = at(&self.heap, last);
        self.count = last;
        self.set(0, moved);
        put(&mut self.places, first, NONE);
        self.sink();
        Some(first)
    }

    /// The stems had a part in a conflict. What comes later counts for more.
    pub fn raise_all(&mut self, stems: &[u32]) {
        for stem in stems {
            self.raise(*stem);
        }
        self.step = self.step.saturating_add(self.step / 16);
    }

    fn raise(&mut self, stem: u32) {
        let active = self.active(stem).saturating_add(self.step);
        let place = stem as usize;
        if place < self.activity.len() {
            self.activity[place] = active;
        }
        if active > HIGH {
            self.lower();
        }
        let place = at(&self.places, stem);
        if place != NONE {
            self.rise(place);
        }
    }

    fn lower(&mut self) {
        for active in &mut self.activity {
            *active >>= 30;
        }
        self.step >>= 30;
        self.step = self.step.max(1);
    }

    fn active(&self, stem: u32) -> u64 {
        self.activity.get(stem as usize).copied().unwrap_or(0)
    }

    fn comes_before(&self, first: u32, second: u32) -> bool {
        let one = self.active(first);
        let two = self.active(second);
        one > two || (one == two && first < second)
    }

    fn set(&mut self, place: u32, stem: u32) {
        put(&mut self.heap, place, stem);
        put(&mut self.places, stem, place);
    }

    fn rise(&mut self, from: u32) {
        let stem = at(&self.heap, from);
        let mut place = from;
        for _ in 0..32 {
            if place == 0 {
                break;
            }
            let parent = (place - 1) / 2;
            let above = at(&self.heap, parent);
            if self.comes_before(above, stem) {
                break;
            }
            self.set(place, above);
            place = parent;
        }
        self.set(place, stem);
    }

    fn sink(&mut self) {
        let stem = at(&self.heap, 0);
        let mut place = 0_u32;
        for _ in 0..32 {
            let Some(child) = self.child(place) else {
                break;
            };
            let below = at(&self.heap, child);
            if self.comes_before(stem, below) {
                break;
            }
            self.set(place, below);
            place = child;
        }
        if self.count > 0 {
            self.set(place, stem);
        }
    }

    // The first of the two places below a place.
    fn child(&self, place: u32) -> Option<u32> {
        let left = place.saturating_mul(2).saturating_add(1);
        if left >= self.count {
            return None;
        }
        let right = left.saturating_add(1);
        if right < self.count && self.comes_before(at(&self.heap, right), at(&self.heap, left)) {
            return Some(right);
        }
        Some(left)
    }
}
