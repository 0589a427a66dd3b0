//! The command `live`, from its arguments and bytes to the bytes of the answers.
//!
//! `run_live` reads a script, publishes its tables one after the other while readers answer its questions, and writes
//! the answers once the whole script is accepted. Its clauses say what each status means, and that status 0 means that
//! the answers were written whole.
#![tactic(auto)]

mod answers;
mod live_arguments;
mod live_stop;
mod live_top;
mod readers;
mod session;

pub use live_arguments::is_live;
pub use live_top::run_live;
