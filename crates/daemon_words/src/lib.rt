//! What a daemon is to do: the words of its command line and its configuration file, read to a `Setup`.
#![tactic(auto)]

mod address;
mod asked;
mod config;
mod defaults;
mod fault;
mod field;
mod file_list;
mod file_use;
mod given;
mod ip_net;
mod joined_texts;
mod log_form;
mod net_text;
mod others_word;
mod printed;
mod printed_signal;
mod profile_word;
mod seconds;
mod settle;
mod setup;
mod signal_table;
mod signals_in;
mod slips;
mod words;
mod words_read;
mod yes_no;

pub use asked::Asked;
pub use config::{ConfigRead, config_in};
pub use fault::SetupFault;
pub use field::Field;
pub use file_use::FileUse;
pub use given::Given;
pub use ip_net::IpNet;
pub use log_form::LogForm;
pub use others_word::OthersWord;
pub use printed::setup_text;
pub use printed_signal::signal_text;
pub use profile_word::ProfileWord;
pub use seconds::Seconds;
pub use settle::Settle;
pub use setup::Setup;
pub use signal_table::{RampTable, RecordingTable, SignalTable, SquareTable, ValueList};
pub use slips::{folders_of, slips_of};
pub use words::read_words;
