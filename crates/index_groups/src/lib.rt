//! Index groups: what an access to an area's bytes, a bit or an area's size names.
#![tactic(auto)]

mod access;
mod groups;
mod numbers;
mod rule;

pub use access::Reach;
pub use groups::{Group, HandleGroup, NameGroup, SumGroup, UploadGroup, byte_group};
pub use numbers::{
    EXTENDED_INFO_BY_NAME, HANDLE_BY_NAME, INFO_BY_NAME, INPUT_BIT, INPUT_BYTES, INPUT_SIZE,
    MEMORY_BIT, MEMORY_BYTES, MEMORY_SIZE, OUTPUT_BIT, OUTPUT_BYTES, OUTPUT_SIZE, PROCESS_BYTES,
    PROCESS_SIZE, RELEASE_HANDLE, SUM_READ, SUM_READ_WRITE, SUM_WRITE, SYMBOL_UPLOAD,
    SYMBOL_VERSION, TYPE_UPLOAD, UPLOAD_INFO, UPLOAD_INFO_WITH_TYPES, VALUE_BY_HANDLE,
    VALUE_BY_NAME, numbers_are_defined,
};
pub use rule::reach;
