//! Runs a script in threads over one journal, from bytes to bytes; and parses the program's
//! arguments.

pub mod arguments;
pub mod dealing;
pub mod script;
mod text;
