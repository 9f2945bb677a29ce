//! How bytes begin, seen piece by piece.

ghost use Rattle.std.specs.Prelude.{◌≡◌, ◌++◌, ℕ, List};
ghost use Rattle.ips_repo.specs.Start.{start_of};

/// What is known of the two bytes by which a gzip file is told (RFC 1952, section 2.3.1).
#[derive(Clone, Copy, Debug, PartialEq, Eq)]
pub(crate) enum Start {
    /// There was no byte yet.
    Nothing,
    /// The one byte so far is the first of the two.
    Half,
    /// Both came.
    Gzip,
    /// Another byte stands in place of one of them.
    Other,
}

impl Start {
    /// How these bytes begin.
    fn of(bytes: &[u8]) -> Start
        ensures { result ≡ start_of bytes.now }
    {
        match bytes {
            [] => Start::Nothing,
            [0x1f] => Start::Half,
            [0x1f, 0x8b, ..] => Start::Gzip,
            _ => Start::Other,
        }
    }

    /// The same, behind one more piece.
    pub(crate) fn behind(self, piece: &[u8]) -> Start
        ensures { (bytes : List ℕ) → self ≡ start_of bytes → result ≡ start_of (bytes ++ piece.now) }
    {
        match self {
            Start::Nothing => Start::of(piece),
            Start::Half => match piece {
                [] => Start::Half,
                [0x8b, ..] => Start::Gzip,
                _ => Start::Other,
            },
            Start::Gzip => Start::Gzip,
            Start::Other => Start::Other,
        }
    }
}
