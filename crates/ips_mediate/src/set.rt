//! What an administrator sets of a mediator.

ghost use Rattle.std.specs.Prelude.{◌≡◌, IfOk};

use ips_fmri::Version;
use ips_text::Text;
use std::alloc::{AllocError, Global};

/// What is set of a mediator (pkg(1), `set-mediator`): the version and the implementation that its links are to have. One that
/// isn't set is free.
#[derive(Drop)]
pub struct SetMediator {
    /// The name of the mediator.
    pub name: Text,
    /// The version that is set.
    pub version: Option<Version>,
    /// The implementation that is set.
    pub implementation: Option<Text>,
}

impl SetMediator {
    /// The same setting.
    pub fn copy(&self, alloc: Global) -> Result<SetMediator, AllocError>
        ensures { IfOk result (λ copy. copy ≡ self.now) }
    {
        Ok(SetMediator {
            name: self.name.copy(alloc)?,
            version: copy_version(alloc, &self.version)?,
            implementation: copy_text(alloc, &self.implementation)?,
        })
    }
}

// A copy of a text, where there is one.
fn copy_text(alloc: Global, text: &Option<Text>) -> Result<Option<Text>, AllocError>
    ensures { IfOk result (λ copy. copy ≡ text.now) }
{
    match text {
        Some(text) => Ok(Some(text.copy(alloc)?)),
        None => Ok(None),
    }
}

// A copy of a version, where there is one.
fn copy_version(alloc: Global, version: &Option<Version>) -> Result<Option<Version>, AllocError>
    ensures { IfOk result (λ copy. copy ≡ version.now) }
{
    match version {
        Some(version) => Ok(Some(version.copy(alloc)?)),
        None => Ok(None),
    }
}
