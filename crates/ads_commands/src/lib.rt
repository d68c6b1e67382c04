//! The payloads of the ADS commands 1 to 9: requests and replies, read and written.
#![tactic(auto)]

mod fault;
mod laws;
mod lengths;
mod reply;
mod reply_reading;
mod reply_writing;
mod request;
mod request_reading;
mod request_writing;

pub use fault::ReadFault;
pub use laws::what_is_written_is_read;
pub use reply::{DeviceFacts, Reply};
pub use reply_reading::read_reply;
pub use reply_writing::put_reply;
pub use request::Request;
pub use request_reading::read_request;
pub use request_writing::put_request;
