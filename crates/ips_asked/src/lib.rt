//! What a changing command asks of an image's records, before any package is chosen.
//!
//! Promised: each part of the records is as the command asks (`specs/Asked`), every other part is as before, and records that the
//! grammars of their files have texts for stay such. What words give is formed so that it can be recorded (`specs/Formed`).
//!
//! In reading order: lists that hold one thing under each name (`named`, `removing`), avoided stems (`avoiding`), variants and facets
//! (`setting`), origins (`origins`), all of it (`asking`, `copying`), an image that is made (`founding`), what is asked of the packages
//! (`requesting`), and the laws (`laws`).
#![tactic(auto)]

mod asking;
mod avoiding;
mod copying;
mod founding;
mod laws;
mod named;
mod origins;
mod removing;
mod requesting;
mod setting;

pub use asking::ask;
pub use founding::founded;
pub use laws::{
    asked_is_lawful, asked_is_one, asked_is_ordered, commands_are_formed, commands_have_versions,
    founded_is_lawful,
};
pub use requesting::request_of;
