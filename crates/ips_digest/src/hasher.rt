//! Digests of bytes that come in pieces.

ghost use Rattle.std.specs.Prelude.{◌≡◌, [], ◌++◌};
ghost use Rattle.ips_digest.specs.Digest.{algorithm_of, digest_of};
ghost use Rattle.ips_digest.specs.Name.{IsName};

use crate::name::PayloadName;
use crate::taken::Taken;
use sha1::Sha1;
use sha2::{Digest, Sha256};
use std::marker::Model;

#[derive(Drop)]
enum State {
    Sha1(Sha1),
    Sha256(Sha256),
}

/// Computes the digest of bytes that come in pieces, however they are cut. It is seen as its hash function and all
/// bytes so far.
#[derive(Drop)]
pub struct Hasher {
    state: State,
    taken: Taken,
}

impl Model for Hasher {
    ghost use Rattle.ips_digest.specs.Digest.{Hashing};

    ghost Value = { Hashing };

    ghost use Rattle.ips_digest.specs.Holding.{algorithm_in, HoldsIn};

    ghost view = { λ h. record { algorithm = algorithm_in h.state; bytes = h.taken.bytes } };

    ghost invariant = { λ h. HoldsIn h.state h.taken.bytes };
}

impl Hasher {
    /// A hasher of no bytes yet, for digests by the same hash function as this name.
    pub fn new(like: &PayloadName) -> Hasher
        ensures { result ≡ record { algorithm = algorithm_of like.now; bytes = [] } }
    {
        let state = match like {
            PayloadName::Sha1(_) => State::Sha1(Sha1::new()),
            PayloadName::Sha256(_) => State::Sha256(Sha256::new()),
        };
        Hasher {
            state,
            taken: Taken::new(),
        }
    }

    /// Takes the next bytes.
    pub fn update(&mut self, bytes: &[u8])
        ensures { self.new ≡ record self.old { bytes = self.old.bytes ++ bytes.now } }
    {
        match &mut self.state {
            State::Sha1(hasher) => hasher.update(bytes),
            State::Sha256(hasher) => hasher.update(bytes),
        }
        self.taken.append(bytes);
    }

    /// The digest of all bytes that were taken.
    pub fn finish(self) -> PayloadName
        ensures digest { result ≡ digest_of self.algorithm self.bytes }
        ensures name { IsName result }
    {
        match self.state {
            State::Sha1(hasher) => PayloadName::Sha1(hasher.finalize()),
            State::Sha256(hasher) => PayloadName::Sha256(hasher.finalize()),
        }
    }
}
