//! The records that list one thing a line: avoided stems, packages at a version, mediators, requests.

ghost use Rattle.std.specs.Prelude.{◌≡◌, ◌↔◌, ℕ, List, false, IsTrue, IfOk, IfNone, IfSome};
ghost use Rattle.std.specs.Ordering.{nat_cmp};
ghost use Rattle.std.specs.Cmp.Lexicographic.{slice_cmp};
ghost use Rattle.std.specs.declared.cmp.Ordering.TheVariants.{Less};
ghost use Rattle.ips_fmri.specs.Fmri.{fmri_text};
ghost use Rattle.ips_fmri.specs.Name.{IsStem};
ghost use Rattle.ips_records.specs.Form.{IsNamed, IsRequestLine};
ghost use Rattle.ips_state.specs.Form.{IsSetting};
ghost use Rattle.ips_state.specs.Text.{mediator_line};

use crate::mediators::setting;
use ips_fmri::Fmri;
use ips_mediate::SetMediator;
use ips_records::{Listing, name, request, stem};
use ips_text::Text;
use std::alloc::{AllocError, Global};

/// Stems by their bytes, each once.
pub struct Stems;

impl Listing for Stems {
    type Item = Text;

    ghost line = { λ stem. stem };

    ghost fits = { IsStem false };

    ghost follows = { λ a b. slice_cmp nat_cmp a b ≡ Less };

    fn read(alloc: Global, bytes: &[u8]) -> Result<Option<Text>, AllocError> {
        stem(alloc, bytes)
    }

    fn may_follow(earlier: &Text, later: &Text) -> bool {
        earlier < later
    }
}

/// Stems at a version, by the bytes of the stems, each stem once.
pub struct Names;

impl Listing for Names {
    type Item = Fmri;

    ghost line = { fmri_text };

    ghost fits = { IsNamed };

    ghost follows = { λ a b. slice_cmp nat_cmp a.stem b.stem ≡ Less };

    fn read(alloc: Global, bytes: &[u8]) -> Result<Option<Fmri>, AllocError> {
        name(alloc, bytes)
    }

    fn may_follow(earlier: &Fmri, later: &Fmri) -> bool {
        earlier.stem < later.stem
    }
}

/// What is set of mediators, by the bytes of their names, each name once.
pub struct Mediators;

impl Listing for Mediators {
    type Item = SetMediator;

    ghost line = { mediator_line };

    ghost fits = { IsSetting };

    ghost follows = { λ a b. slice_cmp nat_cmp a.name b.name ≡ Less };

    fn read(alloc: Global, bytes: &[u8]) -> Result<Option<SetMediator>, AllocError> {
        setting(alloc, bytes)
    }

    fn may_follow(earlier: &SetMediator, later: &SetMediator) -> bool {
        earlier.name < later.name
    }
}

/// Requests that were carried out, in order.
pub struct Requests;

impl Listing for Requests {
    type Item = Text;

    ghost line = { λ line. line };

    ghost fits = { IsRequestLine };

    ghost follows = { λ a b. Unit {0} };

    fn read(alloc: Global, bytes: &[u8]) -> Result<Option<Text>, AllocError> {
        request(alloc, bytes)
    }

    fn may_follow(_earlier: &Text, _later: &Text) -> bool {
        true
    }
}
