//! What people write in a Multics command: entry names, principals, rows of an access control list,
//! paths and modes of access.
//!
//! Each is kept in the value itself, so no call here but `path_text` takes memory.
#![tactic(auto)]

mod labels;
mod modes;
mod names;
mod paths;
mod principals;
mod rows;
mod texts;

pub use labels::{Label, read_label};
pub use modes::Mode;
pub use names::{Name, read_name};
pub use no_memory::NoMemory;
pub use paths::{BadPath, Path, path_text, read_path};
pub use principals::{Who, read_who};
pub use rows::{Row, read_row};
