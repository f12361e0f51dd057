//! The words of the program: which command they spell, with which options.
#![tactic(auto)]

mod command;
mod fault;
mod help;
mod line;
mod names;
mod reading;
mod spelling;
mod values;

pub use command::Command;
pub use fault::WordFault;
pub use help::{Page, page_of, page_text};
pub use names::{CommandName, OptionName};
pub use reading::{client_words, is_run, read_words};
