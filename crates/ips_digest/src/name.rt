//! Names of payloads.

ghost use Rattle.std.specs.Prelude.{◌≡◌, ◌*◌, ◌↔◌, IfSome, IsSome, IsTrue, Option, Some, drop, length, take};
ghost use Rattle.std.specs.List.{AllPass};
ghost use Rattle.hex.specs.Hex.{IsBytes, encode_lower};
ghost use Rattle.ips_digest.specs.Name.{AreNameDigits, IsName, IsReading, digit_count, is_lower_digit, spelling};
ghost use Rattle.ips_digest.specs.declared.name.PayloadName.{PayloadName};

use hex::FromHex;

/// The name of a payload in a repository: the SHA-1 or SHA-256 digest of its bytes (FIPS 180-4), spelled in lower-case
/// hex digits.
#[derive(Clone, Copy, Debug, PartialEq, Eq)]
pub enum PayloadName {
    Sha1([u8; 20]),
    Sha256([u8; 32]),
}

impl PayloadName {
    #[tactic(auto, unfolding(crate::specs::Name::spelling))]
    /// The name that a text spells: 40 or 64 lower-case hex digits.
    pub fn parse(text: &str) -> Option<PayloadName>
        ensures digits { IsSome result ↔ AreNameDigits text.now }
        ensures reading { IsReading text.now result }
        ensures only { (name : PayloadName) → IsName name → text.now ≡ spelling name → result ≡ Some name }
    {
        match text.len() {
            40 => Some(PayloadName::Sha1(from_lower_hex(text)?)),
            64 => Some(PayloadName::Sha256(from_lower_hex(text)?)),
            _ => None,
        }
    }

    /// Writes the digits of the name to the front of `out`, leaves what is behind them, and answers how many they are.
    pub fn print(&self, out: &mut [u8; 64]) -> usize
        ensures count { result ≡ digit_count self.now }
        ensures spelled { take result out.new ≡ spelling self.now }
        ensures rest { drop result out.new ≡ drop result out.old }
    {
        match self {
            PayloadName::Sha1(bytes) => {
                write_lower_hex(bytes, &mut out[..40]);
                40
            }
            PayloadName::Sha256(bytes) => {
                write_lower_hex(bytes, out);
                64
            }
        }
    }
}

// The bytes that lower-case hex digits spell, two digits for each.
fn from_lower_hex<const N: usize>(text: &str) -> Option<[u8; N]>
    ensures digits { IsSome result ↔ ((length text.now ≡ 2 * N) × AllPass is_lower_digit text.now) }
    ensures found { IfSome result (λ bytes. (length bytes ≡ N) × IsBytes bytes × (text.now ≡ encode_lower bytes)) }
{
    if are_lower_digits(text) {
        <[u8; N]>::from_hex(text).ok()
    } else {
        None
    }
}

// Writes the lower-case hex digits of the bytes over the text.
fn write_lower_hex(bytes: &[u8], text: &mut [u8])
    requires { length text.old ≡ 2 * length bytes.now }
    ensures { text.new ≡ encode_lower bytes.now }
{
    hex::encode_to_slice(bytes, text).unwrap();
}

fn are_lower_digits(text: &str) -> bool
    ensures { IsTrue result ↔ AllPass is_lower_digit text.now }
{
    text.bytes()
        .all(|byte| matches!(byte, b'0'..=b'9' | b'a'..=b'f'))
}

/// No two payload names have one spelling.
pub fn one_spelling()
    ensures { (a b : PayloadName) → IsName a → IsName b → spelling a ≡ spelling b → a ≡ b }
{}

/// A printed name reads back: whatever the reading of its spelling answers is that name.
pub fn reads_back()
    ensures { (name : PayloadName) → IsName name → (read : Option PayloadName) → IsReading (spelling name) read → read ≡ Some name }
{}
