//! The command line of the product: the command of a list of words.
#![tactic(auto)]

mod client;
mod client_words;
mod command;
mod commands;
mod division;
mod form;
mod read;
mod refusal;
mod text;
mod values;

pub use client_words::{ClientWords, PeerWords};
pub use command::Command;
pub use read::read_words;
pub use text::{Text, TextList};
