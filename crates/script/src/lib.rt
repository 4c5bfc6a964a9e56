//! The script of a run: a machine, its volumes, and the commands of each process.
#![tactic(auto)]

mod command_lines;
mod command_list;
mod commands;
mod drafts;
mod fields;
mod lines;
mod plan;
mod reader;
mod refusals;
mod scripts;
mod texts;
mod values;
mod volumes;

pub use commands::{Command, Process, RefKind, Reference};
pub use fields::split_field;
pub use lines::next_line;
pub use plan::{Bulk, Fail, MOST_PROCESSORS, Print, Script, VolumeLine};
pub use reader::{ScriptFault, read_script};
pub use refusals::{Cause, Refusal};
pub use scripts::{NoMemory, each_text_is_read_again, script_text};
pub use texts::push_command;
pub use values::read_number;
