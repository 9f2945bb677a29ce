//! What is destroyed, what is given up and what is salvaged, at the paths that a request is about.
//!
//! In reading order: what account files and records take away (`away`), whether something stands at a row's path (`there`) and whether that may
//! go unsaved (`giving`), where something is destroyed (`destroying`), what goes with it (`falling`), and what of it is salvaged (`salvaging`).
#![tactic(auto)]

mod away;
mod destroying;
mod falling;
mod giving;
mod salvaging;
mod there;

pub use away::taken_away;
pub use destroying::destroyed;
pub use falling::going;
pub use giving::given_up_at;
pub use salvaging::salvaged;
pub use there::is_there;
