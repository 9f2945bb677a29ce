//! Lists of numbers, which are read and written at any place.

use std::alloc::Global;

/// No number.
pub const NONE: u32 = u32::MAX;

/// The most numbers of one list. Past that the engine gives up, as for want of memory.
pub const MOST: u32 = 1 << 23;

/// The number at a place, `NONE` past the end.
pub fn at(list: &[u32], place: u32) -> u32 {
    list.get(place as usize).copied().unwrap_or(NONE)
}

/// Writes the number at a place, where there is one.
pub fn put(list: &mut Vec<u32>, place: u32, number: u32) {
    let place = place as usize;
    if place < list.len() {
        list[place] = number;
    }
}

/// A length as a number, `NONE` where no list may be so long.
pub fn counted(length: usize) -> u32 {
    if length > MOST as usize {
        return NONE;
    }
    length as u32
}

/// Puts a number to the end of a list; false where there is no room.
pub fn pushed(list: &mut Vec<u32>, number: u32) -> bool {
    list.len() < MOST as usize && list.push(number).is_ok()
}

/// Puts numbers to the end of a list; false where there is no room.
pub fn extended(list: &mut Vec<u32>, numbers: &[u32]) -> bool {
    list.len().saturating_add(numbers.len()) <= MOST as usize
        && list.extend_from_slice(numbers).is_ok()
}

/// Gives an empty list this number so many times; false where there is no room.
pub fn filled(list: &mut Vec<u32>, count: usize, number: u32) -> bool {
    list.resize(count, number).is_ok()
}

/// The part of a list between two places.
pub fn between(list: &[u32], start: u32, end: u32) -> &[u32] {
    let start = start as usize;
    let end = end as usize;
    if start <= end && end <= list.len() {
        &list[start..end]
    } else {
        &[]
    }
}

/// Swaps the numbers at two places.
pub fn swap(list: &mut Vec<u32>, one: u32, two: u32) {
    let first = one as usize;
    let second = two as usize;
    if first < list.len() && second < list.len() {
        list.swap(first, second);
    }
}

/// Items in chains, each item in one.
#[derive(Drop)]
pub struct Chains {
    heads: Vec<u32>,
    links: Vec<u32>,
}

impl Chains {
    /// No chains.
    pub fn new(alloc: Global) -> Chains {
        Chains {
            heads: Vec::new(alloc),
            links: Vec::new(alloc),
        }
    }

    /// Makes so many chains and so many items, which are in no chain; false where there is no room.
    pub fn lay_out(&mut self, chains: usize, items: usize) -> bool {
        filled(&mut self.heads, chains, NONE) && filled(&mut self.links, items, NONE)
    }

    /// A further item, which is in no chain; false where there is no room.
    pub fn grow(&mut self) -> bool {
        self.links.push(NONE).is_ok()
    }

    /// Puts an item into a chain.
    pub fn put(&mut self, chain: u32, item: u32) {
        let head = at(&self.heads, chain);
        put(&mut self.links, item, head);
        put(&mut self.heads, chain, item);
    }

    /// The first item of a chain.
    pub fn first(&self, chain: u32) -> u32 {
        at(&self.heads, chain)
    }

    /// The item behind an item.
    pub fn after(&self, item: u32) -> u32 {
        at(&self.links, item)
    }

    /// The first item of a chain, which is left without items.
    pub fn take(&mut self, chain: u32) -> u32 {
        let head = at(&self.heads, chain);
        put(&mut self.heads, chain, NONE);
        head
    }
}
