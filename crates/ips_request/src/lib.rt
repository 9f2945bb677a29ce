//! What a request asks of an image and a catalog, one stem at a time.
//!
//! A request and the image that it is made on are a subject, which tells of each stem what the request has in mind for it, to which
//! versions it may come, and which manifests that needs. Out of the manifests that were read, the candidates of a stem are put in
//! order: versions, and absence where it may be absent. Each answer is what the definitions say of the case that the two make.
//!
//! In reading order: requests (`kind`, `request`, `fault`); sets of stems (`stems`); what patterns name (`known`, `naming`); what is
//! asked of an image (`asking`, `making`, `subject`); the versions of a stem (`versions`), what a request has in mind for it (`role`)
//! and its candidates (`arranging`); manifests (`read`, `reading`), and the law that they can be read (`law`).
#![tactic(auto)]

mod arranging;
mod asking;
mod fault;
mod kind;
mod known;
mod law;
mod making;
mod naming;
mod read;
mod reading;
mod request;
mod role;
mod stems;
mod subject;
mod versions;

pub use arranging::arranged;
pub use asking::{Naming, Subject};
pub use fault::ProblemFault;
pub use kind::Kind;
pub use law::{manifests_can_be_read, reading_is_one};
pub use making::subject_of;
pub use read::Read;
pub use reading::{fetched, judged, missing};
pub use request::Request;
pub use role::Role;
pub use stems::{add_fmris, add_packages, add_texts, number};
pub use versions::newest_first;
