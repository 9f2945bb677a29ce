//! The keys below four sizes, numbered from 0 on.

ghost use Rattle.std.specs.Prelude.{◌≡◌, ◌<◌, ℕ, slice_index};
ghost use Rattle.ips_cases.specs.Cases.{AreSizes, IsKey};
ghost use Rattle.ips_cases.specs.Numbering as numbering;

/// How many keys there are.
pub(crate) fn key_count(sizes: &[u8; 4]) -> u32
    requires { AreSizes sizes.now }
    ensures { result ≡ numbering.key_count sizes.now }
{
    u32::from(sizes[0]) * u32::from(sizes[1]) * u32::from(sizes[2]) * u32::from(sizes[3])
}

/// The key of this number, the last place running fastest.
pub(crate) fn key_at(number: u32, sizes: &[u8; 4]) -> [u8; 4]
    requires { AreSizes sizes.now }
    ensures value { result ≡ numbering.key_at sizes.now number }
    ensures key { IsKey sizes.now result }
{
    let [a, b, c, d] = sizes.map(u32::from);
    [
        (number / d / c / b % a) as u8,
        (number / d / c % b) as u8,
        (number / d % c) as u8,
        (number % d) as u8,
    ]
}
