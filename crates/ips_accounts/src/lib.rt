//! The account files `etc/passwd`, `etc/shadow` and `etc/group`: what they say of users and groups, and how they are edited
//! where packages bring, change or take users and groups.
//!
//! An edit is exact: the text of each file is the function of the standing texts and of the actions that the definitions state.
//!
//! The files as lines are those of `ips_books`, found by name and number as `ips_passwd` finds them, so that an action takes no
//! pass over a file; which names go and which actions are new is told by `ips_turnover`. In reading order: the files (`tables`),
//! numbers (`numbers`), groups (`groups`), users (`users`), the edit (`editing`), and what it leaves (`laws`).
#![tactic(auto)]

mod editing;
mod groups;
mod laws;
mod numbers;
mod tables;
mod users;

pub use editing::edit;
pub use ips_books::{AccountFault, Book, Books, Unknown};
pub use ips_passwd::Owners;
pub use laws::{
    gone_groups_have_no_line, gone_users_are_no_members, gone_users_have_no_line,
    lines_are_the_text, members_stay, new_groups_stand, new_users_stand, other_lines_stay,
    other_users_stay,
};
