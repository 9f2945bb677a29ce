//! Numbers found by their stem.

ghost use Rattle.std.specs.Prelude.{◌≡◌, ◌+◌, ◌-◌, ◌<◌, ◌^◌, [], length, replicate, IfOk, OnOk};
ghost use Rattle.ips_search.specs.Indexing.{IsIndexed, IsPut};

use ips_refute::Puzzle;
use std::alloc::{AllocError, Global};

/// Numbers that were put at stems, in ascending order: `heads` has, by stem, one more than the greatest number there, and `links`,
/// by number, one more than the next smaller one at its stem; 0 where there is none.
#[derive(Drop)]
pub struct Chains {
    pub heads: Vec<u32>,
    pub links: Vec<u32>,
}

impl Chains {
    /// Chains for so many stems, without numbers.
    pub fn new(alloc: Global, stems: u32) -> Result<Chains, AllocError>
        ensures { IfOk result (λ c. (c.heads.items ≡ replicate stems 0) × (c.links.items ≡ [])) }
    {
        Ok(Chains {
            heads: vec![in alloc; 0; stems as usize]?,
            links: Vec::new(alloc),
        })
    }

    /// Puts the next number at a stem.
    pub fn put(&mut self, stem: u32) -> Result<(), AllocError>
        requires stem { stem < length self.old.heads.items }
        requires room { length self.old.links.items < 2 ^ 32 - 1 }
        ensures { OnOk result (IsPut self.old self.new stem) }
    {
        let head = self.heads[stem as usize];
        self.links.push(head)?;
        self.heads[stem as usize] = self.links.len() as u32;
        Ok(())
    }

    /// Puts the next number at a stem, where there is such a stem and a number left.
    pub fn note(&mut self, stem: u32) -> Result<(), AllocError> {
        if (stem as usize) < self.heads.len() && self.links.len() < u32::MAX as usize {
            self.put(stem)?;
        }
        Ok(())
    }
}

/// The tests by their last stem.
pub fn index_tests<P: Puzzle>(alloc: Global, puzzle: &P) -> Result<Chains, AllocError>
    ensures { IfOk result (λ tests. IsIndexed (P.meaning puzzle.now) tests) }
{
    let mut tests = Chains::new(alloc, puzzle.stems())?;
    let count = puzzle.tests();
    for test in 0..count {
        let last = puzzle.last(test);
        tests.put(last)?;
    }
    Ok(tests)
}

/// The entry at a place, 0 past the end.
pub fn entry(chain: &[u32], place: u32) -> u32 {
    chain.get(place as usize).copied().unwrap_or(0)
}
