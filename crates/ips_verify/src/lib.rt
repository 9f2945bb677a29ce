//! What of an image isn't as its packages mean it (pkg(1), `verify`).
//!
//! `findings` tells at each wanted path the first damage that holds there. Files are compared as they are read, piece by piece. In
//! reading order: damage at a path (`damage`), all findings (`verifying`).
#![tactic(auto)]

mod damage;
mod verifying;

pub use verifying::findings;
