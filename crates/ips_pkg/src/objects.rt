//! The host's objects that a line of words is run on.

ghost use Rattle.std.specs.Prelude.{◌≡◌, ◌∷◌, ℕ, List, IfOk, codes, map, string_bytes};
ghost use Rattle.ips_host.specs.Roots.{image_root, repository_root};
ghost use Rattle.ips_pkg.specs.Named.{IsImageOf, IsRepositoryOf};

use ips_host::{HostFolder, HostSink, HostSource, HostSpawner};
use ips_text::Text;
use std::alloc::AllocError;

/// The repository, the image's folder, what runs programs, and where the report goes.
#[derive(Drop)]
pub struct Objects {
    pub source: HostSource<HostRuntime>,
    pub folder: HostFolder<HostRuntime>,
    pub spawner: HostSpawner<HostRuntime>,
    pub sink: HostSink<HostRuntime>,
}

/// The objects for these words: the image and the repository are the folders that they name.
pub fn objects_of(rt: HostRuntime, words: &[String]) -> Result<Objects, AllocError>
    ensures image { IfOk result (λ objects. IsImageOf (map string_bytes words.now) (image_root objects.folder)) }
    ensures repository { IfOk result (λ objects. IsRepositoryOf (map string_bytes words.now) (repository_root objects.source)) }
{
    let (image, repository) = roots_of(words);
    let image = Text::new(rt.alloc(), image)?;
    let repository = Text::new(rt.alloc(), repository)?;
    Ok(Objects {
        source: HostSource::new(rt, repository),
        folder: HostFolder::new(rt, image),
        spawner: HostSpawner::new(rt),
        sink: HostSink::new(rt),
    })
}

/// The paths of the image and the repository, where the words begin `-R <image> -s <repository>`, and else empty paths.
/// For such words the top call asks nothing of either.
pub fn roots_of(words: &[String]) -> (&str, &str)
    ensures image { IsImageOf (map string_bytes words.now) result.0.now }
    ensures repository { IsRepositoryOf (map string_bytes words.now) result.1.now }
{
    match words {
        [image_option, image, repository_option, repository, ..]
            if image_option.as_str() == "-R" && repository_option.as_str() == "-s" => {
            (image.as_str(), repository.as_str())
        }
        _ => ("", ""),
    }
}
