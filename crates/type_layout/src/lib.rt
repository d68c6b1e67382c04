//! Types and descriptions: how a type lies in memory, what its parts are, and how it is written.
#![tactic(auto)]

mod description;
mod enumerations;
mod extent;
mod extents;
mod form;
mod kind;
mod laws;
mod named_type;
mod parts;
mod port;
mod read_texts;
mod reading;
mod same_types;
mod shape;
mod spelling;
mod structures;
mod upload;
mod words;

pub use description::{Description, Rights, RouteDesc, Routes4};
pub use enumerations::{EnumType, EnumValue, EnumValues};
pub use extent::{Extent, align, size};
pub use extents::Extents;
pub use form::put_form;
pub use kind::Kind;
pub use laws::canonical_texts_are_read_back;
pub use named_type::{NamedType, Types};
pub use parts::member;
pub use port::{Area, DeviceFacts4, Nets, PortDesc, PortList, Sizes, SymbolDesc, Symbols};
pub use read_texts::{ElemText, Ends, TypeText};
pub use reading::read_type_text;
pub use same_types::SameTypes;
pub use shape::{Bound, Bounds, Elem, Shape, TypeRef};
pub use spelling::type_text;
pub use structures::{Member, Members, StructType};
pub use upload::upload_size;
