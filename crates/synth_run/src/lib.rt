//! The top call.
//!
//! `run` goes from the arguments and bytes that it is given to the bytes that it writes. Its clauses say what each
//! status means. Status 0 of `synth` means the plant's table; of `check` that the bytes are such a table; of `upgrade`
//! the text of the table; of `sim` a trace of it; of `demo` the demo plant's line; of `stay` and `patrol` a text that
//! settles the plant or patrols its targets.
#![tactic(auto)]

mod commands;
pub mod laws;
mod top;
mod work;

pub use command_line::{Command, Failure, Outcome, Refusal, StateNumbers};
pub use demo_plants::demo_plant;
pub use frontier_pool::{Gate, Open};
pub use run_devices::{
    CleanSource, CountSink, Failed, MemorySink, MemorySource, NoMemory, Sink, Source,
};
pub use top::run;
