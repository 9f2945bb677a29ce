//! A request as it is carried out: its plan can be staged, and what is seen once it is laid is the image after the request.
mod requested;

pub use requested::plan;
