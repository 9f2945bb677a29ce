//! The objects in memory.

ghost use Rattle.std.specs.Prelude.{◌≤◌};

use ips_folder::MemFolder;
use ips_generate::generate;
use ips_outside::{MemSpawner, SureSource, Tree};
use std::alloc::{AllocError, Global};

/// A repository, the folder of an image and a spawner, in memory. No call on them is made to fail.
#[derive(Drop)]
pub(crate) struct World {
    pub repository: SureSource,
    pub folder: MemFolder,
    pub spawner: MemSpawner,
}

impl World {
    /// The repository of so many packages beside `all`, and an empty folder.
    pub fn new(alloc: Global, number: u64) -> Result<World, AllocError>
        requires some { 1 ≤ number }
        requires few { number ≤ 2000 }
    {
        let repository = generate(alloc, number)?;
        let folder = MemFolder::new(alloc, Tree::new(alloc), Vec::new(alloc), None)?;
        let spawner = MemSpawner::new(alloc, 0, Vec::new(alloc), Vec::new(alloc))?;
        Ok(World {
            repository,
            folder,
            spawner,
        })
    }
}
