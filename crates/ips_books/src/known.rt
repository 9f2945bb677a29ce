//! The numbers of users and groups that are known without a line.

ghost use Rattle.std.specs.Prelude.{◌≡◌};
ghost use Rattle.ips_books.specs.Accounts as spec;

/// The number of a user that is known without a line.
pub fn known_user(name: &str) -> Option<u32>
    ensures { result ≡ spec.known spec.known_users name.now }
{
    match name {
        "root" => Some(0),
        "daemon" => Some(1),
        "bin" => Some(2),
        "sys" => Some(3),
        "adm" => Some(4),
        _ => None,
    }
}

/// The number of a group that is known without a line.
pub fn known_group(name: &str) -> Option<u32>
    ensures { result ≡ spec.known spec.known_groups name.now }
{
    match name {
        "root" => Some(0),
        "other" => Some(1),
        "bin" => Some(2),
        "sys" => Some(3),
        "adm" => Some(4),
        "mail" => Some(6),
        "tty" => Some(7),
        _ => None,
    }
}
