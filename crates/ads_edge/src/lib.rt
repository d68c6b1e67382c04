//! The real outside: files of the disk, standard output, the sockets of a server and that of a client.
#![tactic(auto)]

mod allowed_net;
mod arrived;
mod beats;
mod connection;
mod description_watch;
mod door_plan;
mod doors;
mod found;
mod given;
mod guest;
mod happened;
mod link_clock;
mod listening_at;
mod out_buffer;
mod peers;
mod real_files;
mod real_link;
mod real_sink;
mod real_wire;
mod refusal;
mod refused_peers;
mod silence;
mod sockets;
mod stage;
mod standard;
mod tick_clock;
mod used_up;
mod vanished;
mod wall_clock;
mod watch_plan;
mod words;
mod written;

pub use allowed_net::{AllowedNet, allows, mapped_is_ipv4};
pub use given::given_doors;
pub use real_files::RealFiles;
pub use real_link::RealLink;
pub use real_sink::RealSink;
pub use real_wire::RealWire;
pub use standard::hold_standard_descriptors;
pub use watch_plan::WatchPlan;
pub use words::words_of_process;
