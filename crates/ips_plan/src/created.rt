//! The plan that makes an image, in which nothing is installed yet.
//!
//! Promised, where the folder tells what it holds: the steps can be staged there, and what is seen once they are laid is the image that the state's records make
//! (`specs/Made`). In reading order: why there is no plan (`fault`), the plan (`creating`), and its steps where all is known that they are made of (`laying`).
mod creating;
mod fault;
mod laying;

pub use creating::create;
pub use fault::CreateFault;
