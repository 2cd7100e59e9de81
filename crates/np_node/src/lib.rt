//! A node keeps strings, each beside its normal form, tells them to others in messages and saves
//! them as an image.
#![tactic(auto)]

mod accepting;
mod entries;
mod faults;
mod fields;
mod images;
pub mod laws;
mod lent_messages;
mod messages;
mod nodes;
mod restoring;
mod strings;
mod taking;
mod writing;

pub use accepting::Accepted;
pub use entries::Entries;
pub use faults::{ImageFault, NodeFault};
pub use lent_messages::LentMessage;
pub use nodes::{MOST_ROOM, Node};
pub use taking::Taken;
