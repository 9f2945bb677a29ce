//! That grammars are decided, each law the contract of a function that does nothing.

ghost use Rattle.std.specs.Prelude.{◌⊎◌, ℕ, List};
ghost use Rattle.ips_manifest.specs.declared.line.Line.{Line};
ghost use Rattle.ips_manifest.specs.Manifest.{IsManifestOf};
ghost use Rattle.ips_filter.specs.Settings.{Set};
ghost use Rattle.ips_depend.specs.Dependency.{Dependency};
ghost use Rattle.ips_depend.specs.Asking.{LinesAsk};

/// The grammar of manifests is decided: every text is a manifest of a list of lines, or of none.
pub fn every_text_is_judged()
    ensures { (bytes : List ℕ) → ((lines : List Line) × IsManifestOf bytes lines) ⊎ ((lines : List Line) → IsManifestOf bytes lines → ⊥) }
{}

/// Dependencies are decided: the lines of a manifest ask an image for a list of dependencies, or one of them is bad.
pub fn every_manifest_asks()
    ensures { (settings : Set) (lines : List Line) → ((ds : List Dependency) × LinesAsk settings lines ds) ⊎ ((ds : List Dependency) → LinesAsk settings lines ds → ⊥) }
{}
