//! The numbers of owners and groups, looked up many times.

ghost use Rattle.std.specs.Prelude.{◌≡◌, List, ℕ, IfOk};
ghost use Rattle.ips_books.specs.Accounts as spec;
ghost use Rattle.ips_books.specs.Lines as lines_spec;
ghost use Rattle.ips_books.specs.Seen.{accounts};

use crate::named::Named;
use ips_books::{Books, Unknown, known_group, known_user, lines_of, number_of};
use std::alloc::{AllocError, Global};
use std::marker::Model;

/// Users and groups, found by name. Contracts see account files whose shadow is empty.
#[derive(Drop)]
pub struct Owners {
    passwd: Named,
    group: Named,
}

impl Model for Owners {
    ghost use Rattle.std.specs.Prelude.{[]};
    ghost use Rattle.ips_books.specs.Accounts.{Accounts};

    ghost Value = { Accounts };

    ghost view = { λ o. record { passwd = o.passwd; shadow = []; group = o.group } };
}

impl Owners {
    /// The users and groups of the account files.
    pub fn new(alloc: Global, books: &Books) -> Result<Owners, AllocError>
        ensures { IfOk result (λ owners. (owner group : List ℕ) → spec.resolved owners owner group ≡ spec.resolved (accounts books.now) owner group) }
    {
        let passwd = read(alloc, &books.passwd)?;
        let group = read(alloc, &books.group)?;
        Ok(Owners { passwd, group })
    }

    /// The numbers of an owner and of a group, or which of the two is unknown, the owner first.
    pub fn resolve(&self, owner: &str, group: &str) -> Result<(u32, u32), Unknown>
        ensures { result ≡ spec.resolved self.now owner.now group.now }
    {
        let Some(uid) = uid_at(&self.passwd, owner) else {
            return Err(Unknown::Owner);
        };
        match gid_at(&self.group, group) {
            Some(gid) => Ok((uid, gid)),
            None => Err(Unknown::Group),
        }
    }
}

// The lines of a text, found by name.
fn read(alloc: Global, text: &[u8]) -> Result<Named, AllocError>
    ensures { IfOk result (λ named. named ≡ lines_spec.account_lines text.now) }
{
    Named::new(alloc, lines_of(alloc, text)?)
}

// The number of a user: that of its first line, else that of the known name.
fn uid_at(passwd: &Named, name: &str) -> Option<u32>
    ensures { result ≡ spec.uid_at passwd.now name.now }
{
    match passwd.line_at(name.as_bytes()) {
        Some(line) => number_of(line.text()),
        None => known_user(name),
    }
}

/// The number of a group: that of its first line, else that of the known name.
pub fn gid_at(group: &Named, name: &str) -> Option<u32>
    ensures { result ≡ spec.gid_at group.now name.now }
{
    match group.line_at(name.as_bytes()) {
        Some(line) => number_of(line.text()),
        None => known_group(name),
    }
}
