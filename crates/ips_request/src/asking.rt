//! What a request asks of an image, with all that is looked up by stems.

ghost use Rattle.std.specs.Prelude.{◌≡◌, ◌≢◌, ℕ, AllPairs, List, map};
ghost use Rattle.ips_fmri.specs.declared.fmri.Fmri as declared;
ghost use Rattle.ips_state.specs.State.{Installed, installed};
ghost use Rattle.ips_request.specs.Stems.{stems_of, firsts};

use crate::kind::Kind;
use indexmap::IndexSet;
use ips_fmri::Version;
use ips_repo::Repo;
use ips_state::State;
use ips_text::Text;

/// What a pattern names.
#[derive(Drop)]
pub struct Naming {
    /// The stems.
    pub stems: Vec<Text>,
    /// The same, to be looked up.
    pub index: IndexSet<String>,
    /// A version that theirs have to incorporate.
    pub limit: Option<Version>,
    ghost known: { stems_of index.keys ≡ firsts stems.items },
}

/// What a request asks of an image, with all that is looked up by stems.
#[derive(Drop)]
pub struct Subject<'a> {
    /// What is asked for.
    pub kind: Kind,
    /// What each of the request's patterns names, in their order.
    pub named: Vec<Naming>,
    /// The rejected stems.
    pub rejected: IndexSet<String>,
    /// The image.
    pub state: &'a State,
    /// The repository, where versions are looked for in one.
    pub repo: Option<&'a Repo>,
    /// The stems of the installed packages, in their order.
    pub packages: IndexSet<String>,
    /// The avoided stems, in their order.
    pub avoided: IndexSet<String>,
    /// The stems of the freezes, in their order.
    pub frozen: IndexSet<String>,
    ghost packages_known: { stems_of packages.keys ≡ map (λ (p : Installed). p.stem) (map installed state.now.installed.items) },
    ghost avoided_known: { stems_of avoided.keys ≡ state.now.avoid.items },
    ghost frozen_known: { stems_of frozen.keys ≡ map (λ (f : declared.Fmri). f.stem) state.now.freeze.items },
    ghost one_freeze: { AllPairs (λ (x y : List ℕ). x ≢ y) (stems_of frozen.keys) },
}
