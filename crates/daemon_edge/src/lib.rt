//! What a daemon reaches of its system beside sockets: signals that wait, a stop file, standard error, systemd, a status file and what stands at names of files.
#![tactic(auto)]

mod err_sink;
mod links;
mod mask;
mod may_write;
mod moment;
mod notify_address;
mod paths;
mod real_places;
mod signal_stop;
mod status_file;
mod stderr_outlet;
mod systemd_beacon;
mod whole_file;

pub use err_sink::ErrSink;
pub use moment::moment_now;
pub use real_places::RealPlaces;
pub use signal_stop::SignalStop;
pub use status_file::StatusFile;
pub use stderr_outlet::StderrOutlet;
pub use systemd_beacon::SystemdBeacon;
pub use whole_file::WholeFile;
