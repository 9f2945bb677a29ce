//! Numbers joined by dots, read from left to right without taking memory.

ghost use Rattle.std.specs.Prelude.{◌≡◌, ◌∷◌, [], ◌↔◌, IsTrue, MatchOption};
ghost use Rattle.std.specs.List.{AllByRecursion};
ghost use Rattle.std.specs.Ordering.{nat_cmp};
ghost use Rattle.std.specs.Cmp.Lexicographic.{slice_cmp};
ghost use Rattle.std.specs.Str.Parse.{digits_value};
ghost use Rattle.ips_action.specs.Check.{IsNumber, IsNumerals};
ghost use Rattle.ips_mediate.specs.Mediation.{dotted, numbers_of};

use ips_text::decimal;
use std::cmp::Ordering;

/// How the numbers of two texts stand to one another: they are compared one by one, and a proper beginning is less.
pub fn numerals_order(a: &[u8], b: &[u8]) -> Ordering
    requires a { IsNumerals a.now }
    requires b { IsNumerals b.now }
    ensures { result ≡ slice_cmp nat_cmp (numbers_of a.now) (numbers_of b.now) }
{
    let mut left = a;
    let mut right = b;
    loop {
        let (first, more) = first_number(left);
        let (second, others) = first_number(right);
        if first != second {
            return first.cmp(&second);
        }
        match (more, others) {
            (Some(more), Some(others)) => {
                left = more;
                right = others;
            }
            (None, None) => return Ordering::Equal,
            (None, Some(_)) => return Ordering::Less,
            (Some(_), None) => return Ordering::Greater,
        }
    }
}

/// Whether these are the numbers of the text.
pub fn are_numbers_of(numbers: &[u64], text: &[u8]) -> bool
    requires { IsNumerals text.now }
    ensures { IsTrue result ↔ (numbers_of text.now ≡ numbers.now) }
{
    let mut left = Some(text);
    for number in numbers {
        let Some(bytes) = left else {
            return false;
        };
        let (first, rest) = first_number(bytes);
        if first != *number {
            return false;
        }
        left = rest;
    }
    left.is_none()
}

// The first number, and the numbers behind its dot, where there are more.
fn first_number(text: &[u8]) -> (u64, Option<&[u8]>)
    requires { AllByRecursion IsNumber (dotted text.now) }
    ensures numbers { MatchOption result.1 (numbers_of text.now ≡ result.0 ∷ []) (λ rest. numbers_of text.now ≡ result.0 ∷ numbers_of rest.now) }
    ensures rest { MatchOption result.1 (Unit {0}) (λ rest. AllByRecursion IsNumber (dotted rest.now)) }
{
    let (part, rest) = first_part(text);
    (number(part), rest)
}

// The first part, and what stands behind the dot that ends it, where one does.
fn first_part(text: &[u8]) -> (&[u8], Option<&[u8]>)
    ensures { MatchOption result.1 (dotted text.now ≡ result.0.now ∷ []) (λ rest. dotted text.now ≡ result.0.now ∷ dotted rest.now) }
{
    match text.iter().position(|b| *b == b'.') {
        Some(i) => (&text[..i], Some(&text[i + 1..])),
        None => (text, None),
    }
}

fn number(part: &[u8]) -> u64
    requires { IsNumber part.now }
    ensures { result ≡ digits_value 10 part.now }
{
    match decimal(part) {
        Some(number) => number,
        None => unreachable!(),
    }
}
