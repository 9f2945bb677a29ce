//! What a request has in mind for a stem.

ghost use Rattle.std.specs.Prelude.{◌≡◌, true, false};
ghost use Rattle.ips_request.specs.Candidates.{role_by};

use crate::kind::Kind;

/// What a request has in mind for a stem.
#[derive(Clone, Copy, Debug, PartialEq, Eq, Drop)]
pub enum Role {
    /// It is asked for and rejected at once.
    Refused,
    /// It is to be absent.
    Gone,
    /// It is asked for.
    Asked,
    /// It is to be updated.
    Renewed,
    /// It is installed, and nothing more is said of it.
    Standing,
    /// It isn't installed, and nothing more is said of it.
    Free,
}

/// What a request says of a stem, and whether the stem is installed.
#[derive(Clone, Copy)]
pub struct Mention {
    /// A pattern names the stem.
    pub named: bool,
    /// The stem is rejected.
    pub rejected: bool,
    /// An update is of the stem.
    pub target: bool,
    /// The stem is installed.
    pub installed: bool,
}

/// The role of a stem of which a request of this kind says this.
pub fn role_of(kind: Kind, mention: Mention) -> Role
    ensures { result ≡ role_by kind mention.named mention.rejected mention.target mention.installed }
{
    match kind {
        Kind::Install if mention.rejected => refused(mention.named),
        Kind::Install if mention.named => Role::Asked,
        Kind::Update if mention.rejected => Role::Gone,
        Kind::Update if mention.target => Role::Renewed,
        Kind::Uninstall if mention.named => Role::Gone,
        _ => unnamed(mention.installed),
    }
}

// The role of a rejected stem in an install.
fn refused(named: bool) -> Role
    ensures { result ≡ role_by Kind.Install named true false false }
{
    if named { Role::Refused } else { Role::Gone }
}

// The role of a stem of which nothing is said.
fn unnamed(installed: bool) -> Role
    ensures { result ≡ role_by Kind.Keep false false false installed }
{
    if installed {
        Role::Standing
    } else {
        Role::Free
    }
}
