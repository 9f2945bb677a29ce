//! What happened, in its order.

use crate::numbers::{NONE, at, filled, put};
use std::alloc::Global;

/// Numbers in the order in which they came. So many of them were gone through.
#[derive(Drop)]
pub struct Trail {
    pub items: Vec<u32>,
    pub count: u32,
    done: u32,
    /// By level, how many there were before its decision.
    pub marks: Vec<u32>,
}

impl Trail {
    /// Without numbers.
    pub fn new(alloc: Global) -> Trail {
        Trail {
            items: Vec::new(alloc),
            count: 0,
            done: 0,
            marks: Vec::new(alloc),
        }
    }

    /// Makes room for so many numbers and levels; false where there is none.
    pub fn lay_out(&mut self, items: usize, levels: usize) -> bool {
        filled(&mut self.items, items, NONE) && filled(&mut self.marks, levels, 0)
    }

    /// A further number.
    pub fn push(&mut self, item: u32) {
        put(&mut self.items, self.count, item);
        self.count = self.count.saturating_add(1);
    }

    /// The next number that wasn't gone through.
    pub fn follow(&mut self) -> Option<u32> {
        if self.done >= self.count {
            return None;
        }
        let item = at(&self.items, self.done);
        self.done = self.done.saturating_add(1);
        Some(item)
    }

    /// Leaves the first numbers, which were gone through.
    pub fn cut(&mut self, count: u32) {
        self.count = count;
        self.done = count;
    }
}
