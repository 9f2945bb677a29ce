//! That manifests can be read, and in one way.

ghost use Rattle.std.specs.Prelude.{◌≡◌};
ghost use Rattle.ips_filter.specs.Settings.{Set};
ghost use Rattle.ips_request.specs.Case.{ManifestReading, IsReading};

/// The law that manifests can be read: whatever the settings of an image are, there is a way to read every manifest by its grammar, and its
/// dependencies as the settings take them. So what is said of every reading is said of some.
pub fn manifests_can_be_read()
    ensures { (settings : Set) → (r : ManifestReading) × IsReading settings r }
{}

/// The law that there is one way: two ways to read manifests by their grammar, and their dependencies as the same settings take them, are equal.
pub fn reading_is_one()
    ensures { (settings : Set) (q r : ManifestReading) → IsReading settings q → IsReading settings r → q ≡ r }
{}
