//! Rows of a table.

ghost use Rattle.std.specs.Prelude.{◌≡◌, ◌<◌, ℕ, slice_index};
ghost use Rattle.ips_cases.specs.Cases.{has, meets};

/// A row of a table. It meets a key where bit `key[i]` of `sets[i]` is set at each of the four places.
#[derive(Clone, Copy, PartialEq, Eq)]
pub struct Row {
    pub sets: [u32; 4],
    pub value: u8,
}

impl Row {
    ghost use Rattle.ips_cases.specs.Cases.{AreBits, meets};

    pub(crate) fn meets(&self, key: &[u8; 4]) -> bool
        requires { AreBits key.now }
        ensures { result ≡ meets key.now self.now }
    {
        has(self.sets[0], key[0])
            && has(self.sets[1], key[1])
            && has(self.sets[2], key[2])
            && has(self.sets[3], key[3])
    }
}

fn has(set: u32, n: u8) -> bool
    requires { n < 32 }
    ensures { result ≡ has set n }
{
    (set >> n) & 1 == 1
}
