//! What the commands that read lines in hexadecimal and print lines share.
#![tactic(auto)]

mod line;
mod text;

pub use line::{bytes_of_line, lines_of};
pub use text::{NOT_HEXADECIMAL, push_line};
