//! The repository.

ghost use Rattle.std.specs.Prelude.{◌≡◌, ◌<◌, ◌≤◌, IfOk, OnOk, length};
ghost use Rattle.ips_outside.specs.State.{untouched};
ghost use Rattle.ips_outside.specs.Tree.{tree_image};
ghost use Rattle.ips_outside.specs.Memory.{sure_outside};
ghost use Rattle.ips_text.specs.Path.{IsPath};
ghost use Rattle.ips_digest.specs.Digest.{SHA1, digest_of};
ghost use Rattle.ips_digest.specs.Name.{IsName};
ghost use Rattle.ips_generate.specs.Generated as spec;

use crate::files::{put_dir, put_file, put_top};
use crate::texts::{all_manifest, catalog, content, manifest, quoted_stem};
use ips_digest::{Hasher, PayloadName};
use ips_outside::{SureSource, Tree};
use std::alloc::{AllocError, Global};

/// A repository of publisher `gen` in memory, with the packages `pkg/p0` to `pkg/p<number - 1>` and `all`, which requires them.
/// Each has one version, a directory of its own and a file in it, and all but the first require another.
pub fn generate(alloc: Global, number: u64) -> Result<SureSource, AllocError>
    requires some { 1 ≤ number }
    requires few { number ≤ 2000 }
    ensures { IfOk result (λ source. sure_outside.state source ≡ untouched (spec.generated number)) }
{
    let mut tree = Tree::new(alloc);
    fill(alloc, &mut tree, number)?;
    Ok(SureSource::new(tree))
}

// Makes all files.
fn fill(alloc: Global, tree: &mut Tree, number: u64) -> Result<(), AllocError>
    requires few { number ≤ 2000 }
    ensures { OnOk result (tree_image tree.new ≡ spec.with_packages number (spec.with_all number (spec.with_frame number (tree_image tree.old)))) }
{
    put_frame(alloc, tree, number)?;
    put_all(alloc, tree, number)?;
    put_packages(alloc, tree, number)?;
    Ok(())
}

// Makes the mark, the folders of the publisher and its catalog.
fn put_frame(alloc: Global, tree: &mut Tree, number: u64) -> Result<(), AllocError>
    ensures { OnOk result (tree_image tree.new ≡ spec.with_frame number (tree_image tree.old)) }
{
    put_top(
        alloc,
        tree,
        b"pkg5.repository",
        b"[repository]\nversion = 4\n",
    )?;
    put_dir(alloc, tree, b"publisher")?;
    put_dir(alloc, tree, b"publisher/gen")?;
    let offers = catalog(alloc, number)?;
    put_file(
        alloc,
        tree,
        b"publisher/gen/catalog",
        b"catalog.base.C",
        &offers,
    )?;
    put_dir(alloc, tree, b"publisher/gen/pkg")?;
    put_dir(alloc, tree, b"publisher/gen/file")?;
    Ok(())
}

// Makes the manifest of the package that requires all others.
fn put_all(alloc: Global, tree: &mut Tree, number: u64) -> Result<(), AllocError>
    ensures { OnOk result (tree_image tree.new ≡ spec.with_all number (tree_image tree.old)) }
{
    let bytes = all_manifest(alloc, number)?;
    put_manifest(alloc, tree, b"all", &bytes)?;
    Ok(())
}

// Makes the packages with numbers.
fn put_packages(alloc: Global, tree: &mut Tree, number: u64) -> Result<(), AllocError>
    requires few { number ≤ 2000 }
    ensures { OnOk result (tree_image tree.new ≡ spec.with_packages number (tree_image tree.old)) }
{
    for i in 0..number {
        put_package(alloc, tree, i)?;
    }
    Ok(())
}

// Makes a package: its manifest and its payload.
fn put_package(alloc: Global, tree: &mut Tree, number: u64) -> Result<(), AllocError>
    requires few { number < 2000 }
    ensures { OnOk result (tree_image tree.new ≡ spec.with_package number (tree_image tree.old)) }
{
    let bytes = content(alloc, number)?;
    let name = name_of(&bytes);
    let text = manifest(alloc, number, &name)?;
    let stem = quoted_stem(alloc, number)?;
    put_manifest(alloc, tree, &stem, &text)?;
    put_payload(alloc, tree, &name, &bytes)?;
    Ok(())
}

// The name of a content.
fn name_of(bytes: &[u8]) -> PayloadName
    ensures digest { result ≡ digest_of SHA1 bytes.now }
    ensures name { IsName result }
{
    let mut hasher = Hasher::new(&PayloadName::Sha1([0; 20]));
    hasher.update(bytes);
    hasher.finish()
}

// Makes a manifest at the place of its quoted stem.
fn put_manifest(alloc: Global, tree: &mut Tree, stem: &[u8], bytes: &[u8]) -> Result<(), AllocError>
    requires { IsPath (spec.manifest_place stem.now) }
    ensures { OnOk result (tree_image tree.new ≡ spec.with_manifest stem.now bytes.now (tree_image tree.old)) }
{
    let mut dir = Vec::from_slice(alloc, b"publisher/gen/pkg/")?;
    dir.extend_from_slice(stem)?;
    put_file(alloc, tree, &dir, b"1.0%2C1-1%3A20240101T000000Z", bytes)?;
    Ok(())
}

// Makes a payload at the place of its name.
fn put_payload(
    alloc: Global,
    tree: &mut Tree,
    name: &PayloadName,
    bytes: &[u8],
) -> Result<(), AllocError>
    requires { IsName name.now }
    ensures { OnOk result (tree_image tree.new ≡ spec.with_payload name.now bytes.now (tree_image tree.old)) }
{
    let mut digits = [0; 64];
    let count = name.print(&mut digits);
    put_content(alloc, tree, &digits[..count], bytes)
}

// Makes a payload at the place of these digits.
fn put_content(
    alloc: Global,
    tree: &mut Tree,
    digits: &[u8],
    bytes: &[u8],
) -> Result<(), AllocError>
    requires some { 2 ≤ length digits.now }
    requires path { IsPath (spec.payload_place digits.now) }
    ensures { OnOk result (tree_image tree.new ≡ spec.with_content digits.now bytes.now (tree_image tree.old)) }
{
    let mut dir = Vec::from_slice(alloc, b"publisher/gen/file/")?;
    dir.extend_from_slice(&digits[..2])?;
    put_file(alloc, tree, &dir, digits, bytes)?;
    Ok(())
}
