use crate::stops::must;
use crate::table::{Ask, all_hold, text};
use crate::told::{put, put_number};
use ips_digest::{Hasher, PayloadName};
use std::alloc::Global;
use std::process::Abort;

// What a table asks of payload names.
enum Asked {
    // How many digits the name of these digits has, and how it is printed over dots.
    Name,
    // The name of a content.
    Sha1,
    Sha256,
    // The name, like another one, of a million letters that come in pieces.
    Million,
}

impl Ask for Asked {
    fn answer(&self, rt: &impl Abort, _: Global, out: &mut String, one: &[u8], two: &[u8]) {
        let name = match self {
            Asked::Name => PayloadName::parse(text(rt, one)),
            Asked::Sha1 => digest(&PayloadName::Sha1([0; 20]), one),
            Asked::Sha256 => digest(&PayloadName::Sha256([0; 32]), one),
            Asked::Million => million(rt, text(rt, one), two),
        };
        match name {
            Some(name) => put_name(rt, out, &name),
            None => put(rt, out, "no name"),
        }
    }
}

fn digest(like: &PayloadName, content: &[u8]) -> Option<PayloadName> {
    let mut hasher = Hasher::new(like);
    hasher.update(content);
    Some(hasher.finish())
}

fn million(rt: &impl Abort, like: &str, letters: &[u8]) -> Option<PayloadName> {
    let mut hasher = Hasher::new(&PayloadName::parse(like)?);
    for _ in 0..800 {
        push_pieces(rt, &mut hasher, letters);
    }
    Some(hasher.finish())
}

// 1,250 letters.
fn push_pieces(rt: &impl Abort, hasher: &mut Hasher, letters: &[u8]) {
    for size in &[1, 63, 64, 65, 1057] {
        hasher.update(letters.get(..*size).expect(rt, "letters"));
    }
}

fn put_name(rt: &impl Abort, out: &mut String, name: &PayloadName) {
    let mut digits = [b'.'; 64];
    let count = name.print(&mut digits);
    put_number(rt, out, count as u64);
    put(rt, out, " ");
    put(rt, out, text(rt, &digits));
}

// The standard's examples of SHA-1 and of SHA-256.
const SHA1: &str = "
-> 40 da39a3ee5e6b4b0d3255bfef95601890afd80709{.*24}
abc -> 40 a9993e364706816aba3e25717850c26c9cd0d89d{.*24}
abcdbcdecdefdefgefghfghighijhijkijkljklmklmnlmnomnopnopq -> 40 84983e441c3bd26ebaae4aa1f95129e5e54670f1{.*24}
";

const SHA256: &str = "
-> 64 e3b0c44298fc1c149afbf4c8996fb92427ae41e4649b934ca495991b7852b855
abc -> 64 ba7816bf8f01cfea414140de5dae2223b00361a396177a9cb410ff61f20015ad
abcdbcdecdefdefgefghfghighijhijkijkljklmklmnlmnomnopnopq -> 64 248d6a61d20638b8e5c026930c3e6039a33ce45964ff2167f6ecedd419db06c1
";

// A million `a`.
const MILLION: &str = "
34aa973cd4c4daa4f61eeb2bdbad27316534016f | {a*1057} -> 40 34aa973cd4c4daa4f61eeb2bdbad27316534016f{.*24}
cdc76e5c9914fb9281a1c7e284d73e67f1809a48a497200e046d39ccc7112cd0 | {a*1057} -> 64 cdc76e5c9914fb9281a1c7e284d73e67f1809a48a497200e046d39ccc7112cd0
";

// Names are printed as they are read.
const NAMES: &str = "
0123456789abcdef0123456789abcdef01234567 -> 40 0123456789abcdef0123456789abcdef01234567{.*24}
fedcba9876543210fedcba9876543210fedcba9876543210fedcba9876543210 -> 64 fedcba9876543210fedcba9876543210fedcba9876543210fedcba9876543210
";

// Other texts are no names.
const OTHERS: &str = "
-> no name
0123456789abcdef0123456789abcdef0123456 -> no name
0123456789abcdef0123456789abcdef012345678 -> no name
0123456789ABCDEF0123456789abcdef01234567 -> no name
0123456789abcdef0123456789abcdef0123456g -> no name
0123456789abcdef0123456789abcdef012345é -> no name
{blank}0123456789abcdef0123456789abcdef0123456 -> no name
0123456789abcdef0123456789abcdef0123456789abcdef0123456789abcde -> no name
0123456789abcdef0123456789abcdef0123456789abcdef0123456789abcdef0 -> no name
0123456789abcdef0123456789abcdef0123456789abcdef0123456789abcdeF -> no name
";

const TABLES: &[(Asked, u64, &str)] = &[
    (Asked::Sha1, 3, SHA1),
    (Asked::Sha256, 3, SHA256),
    (Asked::Million, 2, MILLION),
    (Asked::Name, 2, NAMES),
    (Asked::Name, 10, OTHERS),
];

const BYTES: [u8; 20] = [
    0, 1, 2, 3, 4, 5, 6, 7, 8, 9, 10, 11, 12, 13, 14, 15, 16, 17, 18, 19,
];

#[test]
fn reads_prints_and_makes_names(rt: HostRuntime) {
    let alloc = rt.alloc();
    all_hold(&rt, alloc, TABLES);
    let name = PayloadName::parse("000102030405060708090a0b0c0d0e0f10111213");
    must(&rt, name == Some(PayloadName::Sha1(BYTES)), "these bytes");
}
