//! Texts of lines and what stands in them, read exactly: a file that lists one item a line is read to its items, or else the
//! first line is told that no such file has there.
//!
//! In reading order: bytes cut at a byte (`splitting`), lists of items (`list`), quoted words (`words`), stems and stems at a
//! version (`names`), fields that may be left free (`optional`), and
//! lines of requests (`requests`).
#![tactic(auto)]

mod list;
mod names;
mod optional;
mod requests;
mod splitting;
mod words;

pub use list::{Listing, read_front, read_list};
pub use names::{name, stem};
pub use optional::{if_version, if_word};
pub use requests::request;
pub use splitting::{cut, next_line};
pub use words::{text_of, word};
