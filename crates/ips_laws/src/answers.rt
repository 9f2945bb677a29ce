//! Laws of answers: what a run is given leaves one, and one image; and a repair that is done leaves nothing to repair.
//!
//! Promised, of one command at one moment over one image and one repository that both tell what they hold (`laws`): each run tells an outcome whose cause stands there, with
//! nothing carried out (`specs/Causes`). Where the cause of an outcome stands, a run says nothing else, and two runs say the same, unless a call failed, memory ran out, a
//! program of the actuator failed or the search spent its limit (`specs/Same`). Where no cause of another outcome stands, and none of these failed, a command is done. That words are one command, or go wrong in one way, is a law of `next_laws`.
//!
//! Of images (`images`): what is seen behind a command is one, by what was seen before, whatever stood at the updater's own names; so two runs that tell a change as done
//! leave images that are seen the same.
//!
//! And of repairs (`repairs`): where one is told as done, nothing is found against what the packages mean, where no two wanted files of
//! different modes shared a node.
mod images;
mod laws;
mod repairs;

pub use images::{image_led_to_is_one, image_left_is_one, made_image_is_one, mended_image_is_one};
pub use laws::{answer_is_one, cause_is_answered, unhindered_is_done};
pub use repairs::repairs_leave_no_finding;
