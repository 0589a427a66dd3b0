//! Live tables: one publisher changes the current table while readers go on reading it.
//!
//! The layer above opens with a first table, publishes others, and tells its readers of them. An answer comes from the
//! last table of some list of tables, and all that its reader had seen or was told of is a prefix of this list. To
//! contracts a publisher is its list of publishes, and a reader is what it has seen and what it was told of.
#![tactic(auto)]

mod copy;
mod current;
mod history;
mod live_fault;
mod opening;
mod prefix;
mod publisher;
mod reader;
mod told;

pub use live_fault::LiveFault;
pub use opening::open;
pub use publisher::Publisher;
pub use reader::{Answered, Reader};
pub use told::Told;
