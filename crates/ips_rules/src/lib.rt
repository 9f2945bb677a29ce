//! Files of rules that transform manifests, as `pkgmogrify` reads them.
//!
//! A file of rules has logical lines as a manifest has. Each is a rule, and the first line is told that is none.
#![tactic(auto)]

mod file;
mod keys;
mod laws;
mod operating;
mod reading;
mod selecting;
mod terms;
mod words;

pub use file::read_rules;
pub use ips_rule::{Operation, Rule, RuleLine, Selector};
pub use laws::rules_are_one;
pub use reading::read_rule;
