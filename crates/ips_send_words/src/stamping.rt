//! Versions as they are published.

ghost use Rattle.std.specs.Prelude.{◌≡◌, ◌<◌, ℕ, None, IfOk, IfSome, IfNone};
ghost use Rattle.ips_fmri.specs.Version.{Parts, IsStamp, IsVersion, version_text};
ghost use Rattle.ips_send_words.specs.Words.{IsStampOf, IsStampedAs, Names, NamesSome, with_stamp};

use ips_fmri::{Fmri, Version};
use ips_moment::moment_text;
use ips_text::{Or, Text};
use std::alloc::{AllocError, Global};

/// A version of a stem, and its publisher.
#[derive(Drop)]
pub(crate) struct Package {
    pub(crate) publisher: Text,
    pub(crate) stem: Text,
    pub(crate) version: Version,
}

/// The version that the word names for it to be published, where it names one.
pub(crate) fn named(alloc: Global, word: &str, moment: u64) -> Result<Option<Package>, AllocError>
    requires { moment < 253370764800 }
    ensures some { IfOk result (λ found. IfSome found (λ named. Names moment word.now named.publisher named.stem named.version)) }
    ensures none { IfOk result (λ found. IfNone found (NamesSome moment word.now → ⊥)) }
{
    let fmri = match Fmri::parse(alloc, word) {
        Ok(fmri) => fmri,
        Err(Or::Bad(_)) => return Ok(None),
        Err(Or::OutOfMemory) => return Err(AllocError),
    };
    let Fmri {
        publisher,
        stem,
        version,
    } = fmri;
    let (Some(publisher), Some(given)) = (publisher, version) else {
        return Ok(None);
    };
    match stamped(alloc, given, moment)? {
        Some(version) => Ok(Some(Package {
            publisher,
            stem,
            version,
        })),
        None => Ok(None),
    }
}

// The version with the timestamp of the moment, where it has none; nothing, where its quoted text is too long then.
fn stamped(alloc: Global, given: Version, moment: u64) -> Result<Option<Version>, AllocError>
    requires moment { moment < 253370764800 }
    requires is { IsVersion given }
    ensures some { IfOk result (λ found. IfSome found (λ version. IsStampedAs given.stamp moment given version × IsVersion version)) }
    ensures none { IfOk result (λ found. IfNone found ((version : Parts) → IsStampedAs given.stamp moment given version → IsVersion version → ⊥)) }
{
    match given.stamp() {
        Some(_) => Ok(Some(given)),
        None => with_moment(alloc, &given, moment),
    }
}

// The same, where it has none.
fn with_moment(alloc: Global, given: &Version, moment: u64) -> Result<Option<Version>, AllocError>
    requires moment { moment < 253370764800 }
    requires is { IsVersion given.now }
    requires unstamped { given.now.stamp ≡ None }
    ensures some { IfOk result (λ found. IfSome found (λ version. IsStampedAs None moment given.now version × IsVersion version)) }
    ensures none { IfOk result (λ found. IfNone found ((version : Parts) → IsStampedAs None moment given.now version → IsVersion version → ⊥)) }
{
    let text = stamped_text(alloc, given, moment)?;
    match Version::parse(alloc, text.as_str()) {
        Ok(version) => Ok(Some(version)),
        Err(Or::Bad(_)) => Ok(None),
        Err(Or::OutOfMemory) => Err(AllocError),
    }
}

// The text of the version with the timestamp of the moment.
fn stamped_text(alloc: Global, given: &Version, moment: u64) -> Result<Text, AllocError>
    requires moment { moment < 253370764800 }
    requires unstamped { given.now.stamp ≡ None }
    ensures { IfOk result (λ text. (stamp : ℕ) × IsStampOf moment stamp × IsStamp stamp × (text ≡ version_text (with_stamp given.now stamp))) }
{
    let version = given.print(alloc)?;
    let stamp = moment_text(alloc, moment)?;
    let mut out = String::new(alloc);
    out.push_str(version.as_str())?;
    out.push_str(":")?;
    out.push_str(stamp.as_str())?;
    Ok(Text::from_string(out))
}
