//! Scripts: their reading, and the texts that a run over one prints.
#![tactic(auto)]

mod bytes;
mod counts;
mod hex_pairs;
mod laws;
mod line;
mod line_kind;
mod lines;
mod log_lines;
mod number_list;
mod numbers;
mod playing;
mod progress;
mod reader;
mod rooms;
mod script;
mod script_line;
mod script_wire;
mod summary_line;
mod texts;

pub use counts::Counts;
pub use laws::{a_script_has_one_log, scripts_open_new_numbers};
pub use log_lines::log_text;
pub use playing::play;
pub use reader::read_script;
pub use script::Script;
pub use script_line::ScriptLine;
pub use script_wire::ScriptWire;
pub use summary_line::summary_text;
pub use texts::put_counted;
