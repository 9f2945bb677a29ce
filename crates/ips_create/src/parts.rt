//! What is made, and where it stands.

ghost use Rattle.std.specs.Prelude.{◌≡◌, ◌++◌, [], IfOk};
ghost use Rattle.ips_text.specs.Path.{IsPath};
ghost use Rattle.ips_outside.specs.Children.{path_bytes};
ghost use Rattle.ips_fmri.specs.Name.{IsPublisher};
ghost use Rattle.ips_repo.specs.Places as place;
ghost use Rattle.ips_listing.specs.Text.{catalog_text};
ghost use Rattle.ips_create.specs.Created.{all_dirs, layout_of};

use ips_contents::path_of;
use ips_listing::print_empty;
use ips_text::RelPath;
use std::alloc::{AllocError, Global};

/// What is made.
#[derive(Drop)]
pub(crate) struct Parts {
    /// The directories: the two of the records, and behind them those of the repository, each behind those that it stands in.
    pub(crate) dirs: Vec<RelPath>,
    /// Where the catalog stands.
    pub(crate) catalog: RelPath,
    /// Its text.
    pub(crate) text: Vec<u8>,
    /// Where the mark stands.
    pub(crate) mark: RelPath,
}

/// What is made for this publisher.
pub(crate) fn parts_of(alloc: Global, publisher: &str) -> Result<Parts, AllocError>
    requires { IsPublisher publisher.now }
    ensures dirs { IfOk result (λ parts. path_bytes parts.dirs.items ≡ all_dirs (layout_of publisher.now)) }
    ensures catalog { IfOk result (λ parts. parts.catalog.bytes ≡ place.catalog_place publisher.now) }
    ensures text { IfOk result (λ parts. parts.text.items ≡ catalog_text publisher.now []) }
    ensures mark { IfOk result (λ parts. parts.mark.bytes ≡ place.mark_place) }
{
    let dirs = dirs_of(alloc, publisher)?;
    let catalog = place_of(alloc, publisher, "/catalog/catalog.base.C")?;
    let text = print_empty(alloc, publisher)?;
    let mark = path_of(alloc, b"pkg5.repository")?;
    Ok(Parts {
        dirs,
        catalog,
        text,
        mark,
    })
}

// The directories.
fn dirs_of(alloc: Global, publisher: &str) -> Result<Vec<RelPath>, AllocError>
    requires { IsPublisher publisher.now }
    ensures { IfOk result (λ dirs. path_bytes dirs.items ≡ all_dirs (layout_of publisher.now)) }
{
    let mut dirs = Vec::new(alloc);
    dirs.push(path_of(alloc, b"var")?)?;
    dirs.push(path_of(alloc, b"var/pkg")?)?;
    dirs.push(path_of(alloc, b"publisher")?)?;
    dirs.push(place_of(alloc, publisher, "")?)?;
    dirs.push(place_of(alloc, publisher, "/catalog")?)?;
    dirs.push(place_of(alloc, publisher, "/pkg")?)?;
    dirs.push(place_of(alloc, publisher, "/file")?)?;
    Ok(dirs)
}

// The path that goes on so behind that of the publisher's part.
fn place_of(alloc: Global, publisher: &str, behind: &str) -> Result<RelPath, AllocError>
    requires { IsPath (place.publisher_place publisher.now ++ behind.now) }
    ensures { IfOk result (λ path. path.bytes ≡ place.publisher_place publisher.now ++ behind.now) }
{
    let mut bytes = Vec::new(alloc);
    bytes.extend_from_slice(b"publisher/")?;
    bytes.extend_from_slice(publisher.as_bytes())?;
    bytes.extend_from_slice(behind.as_bytes())?;
    path_of(alloc, bytes.as_slice())
}
