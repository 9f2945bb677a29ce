//! The numbers that actions want.

ghost use Rattle.std.specs.Prelude.{◌≡◌, Ok};
ghost use Rattle.ips_text.specs.Reading.{Gives};
ghost use Rattle.ips_accounts.specs.Editing as spec;

use ips_books::{AccountFault, number_of};
use ips_passwd::Numbered;
use ips_text::Or;

/// The number that a name wants, unless another name has it.
pub fn number_for(
    lines: &mut Numbered,
    name: &[u8],
    id: Option<u32>,
) -> Result<u32, Or<AccountFault>>
    ensures number { Gives (λ n. n) result (spec.number_for lines.old name.now id) }
    ensures same { lines.new ≡ lines.old }
{
    let id = wanted_number(lines, name, id);
    if lines.is_taken(name, id) {
        return Err(Or::Bad(AccountFault::IdTaken { id }));
    }
    Ok(id)
}

// The number that a name wants: the one given, else that of its line, else the free one.
fn wanted_number(lines: &mut Numbered, name: &[u8], id: Option<u32>) -> u32
    ensures number { result ≡ spec.wanted_number lines.old name.now id }
    ensures same { lines.new ≡ lines.old }
{
    if let Some(id) = id {
        return id;
    }
    match lines.named().line_at(name) {
        Some(line) => number_of(line.text()).unwrap_or(0),
        None => free_number(lines),
    }
}

// The least free number from 1 on, at most the last of all.
fn free_number(lines: &mut Numbered) -> u32
    ensures number { result ≡ spec.free_number lines.old }
    ensures same { lines.new ≡ lines.old }
{
    let used = lines.count_used();
    if used < u32::MAX as usize {
        used as u32 + 1
    } else {
        u32::MAX
    }
}
