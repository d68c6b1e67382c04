//! Index groups by their numbers. Beckhoff Information System, "Index Group/Offset Specification".

ghost use Rattle.std.specs.Prelude.{◌≡◌, option_map, Some};
ghost use Rattle.spec_formats.specs.Groups.{AreaBytes, group_of};
ghost use Rattle.type_layout.specs.Descriptions.{area_of};
ghost use Rattle.index_groups.specs.Groups.{group_meant, byte_number};

use crate::numbers::{
    EXTENDED_INFO_BY_NAME, HANDLE_BY_NAME, INFO_BY_NAME, INPUT_BIT, INPUT_BYTES, INPUT_SIZE,
    MEMORY_BIT, MEMORY_BYTES, MEMORY_SIZE, OUTPUT_BIT, OUTPUT_BYTES, OUTPUT_SIZE, PROCESS_BYTES,
    PROCESS_SIZE, RELEASE_HANDLE, SUM_READ, SUM_READ_WRITE, SUM_WRITE, SYMBOL_UPLOAD,
    SYMBOL_VERSION, TYPE_UPLOAD, UPLOAD_INFO, UPLOAD_INFO_WITH_TYPES, VALUE_BY_HANDLE,
    VALUE_BY_NAME,
};
use type_layout::Area;

/// What an index group names.
#[derive(Clone, Copy, Debug, PartialEq, Eq)]
pub enum Group {
    /// The bytes of an area; the offset is the first byte.
    Bytes(Area),
    /// A bit of an area; the offset is its byte times 8 plus its number.
    Bit(Area),
    /// The size of an area.
    Size(Area),
    /// A handle, or what it leads to.
    Handle(HandleGroup),
    /// What a name leads to.
    Name(NameGroup),
    /// 0xF008: the symbol version.
    Version,
    /// An upload, or the sizes of uploads.
    Upload(UploadGroup),
    /// Many requests in one.
    Sum(SumGroup),
}

/// The groups of handles.
#[derive(Clone, Copy, Debug, PartialEq, Eq)]
pub enum HandleGroup {
    /// 0xF003: a handle of what a name leads to.
    ByName,
    /// 0xF005: a value; the offset is the handle.
    Value,
    /// 0xF006: the end of a handle.
    Release,
}

/// The groups of names that need no handle.
#[derive(Clone, Copy, Debug, PartialEq, Eq)]
pub enum NameGroup {
    /// 0xF004: the value.
    Value,
    /// 0xF007: byte group, offset and length.
    Info,
    /// 0xF009: the symbol entry.
    Entry,
}

/// The groups of uploads.
#[derive(Clone, Copy, Debug, PartialEq, Eq)]
pub enum UploadGroup {
    /// 0xF00B: the entries of all symbols.
    Symbols,
    /// 0xF00C: how many symbols there are, and the size of their upload.
    Info,
    /// 0xF00E: the entries of all named types.
    Types,
    /// 0xF00F: the same numbers of symbols and of types.
    InfoWithTypes,
}

/// The groups of sums.
#[derive(Clone, Copy, Debug, PartialEq, Eq)]
pub enum SumGroup {
    /// 0xF080: reads in one request.
    Read,
    /// 0xF081: writes in one request.
    Write,
    /// 0xF082: reads and writes in one request.
    ReadWrite,
}

impl Group {
    /// The group of a number. None exactly where no group has it.
    #[inline(always)]
    #[tactic(auto, unfolding(spec_formats::specs::Groups::group_in, spec_formats::specs::Groups::group_of))]
    pub fn of(number: u32) -> Option<Group>
        ensures { option_map group_meant result ≡ group_of number }
    {
        match number {
            MEMORY_BYTES => Some(Group::Bytes(Area::Memory)),
            MEMORY_BIT => Some(Group::Bit(Area::Memory)),
            MEMORY_SIZE => Some(Group::Size(Area::Memory)),
            PROCESS_BYTES => Some(Group::Bytes(Area::Process)),
            PROCESS_SIZE => Some(Group::Size(Area::Process)),
            HANDLE_BY_NAME => Some(Group::Handle(HandleGroup::ByName)),
            VALUE_BY_NAME => Some(Group::Name(NameGroup::Value)),
            VALUE_BY_HANDLE => Some(Group::Handle(HandleGroup::Value)),
            RELEASE_HANDLE => Some(Group::Handle(HandleGroup::Release)),
            INFO_BY_NAME => Some(Group::Name(NameGroup::Info)),
            SYMBOL_VERSION => Some(Group::Version),
            EXTENDED_INFO_BY_NAME => Some(Group::Name(NameGroup::Entry)),
            SYMBOL_UPLOAD => Some(Group::Upload(UploadGroup::Symbols)),
            UPLOAD_INFO => Some(Group::Upload(UploadGroup::Info)),
            TYPE_UPLOAD => Some(Group::Upload(UploadGroup::Types)),
            UPLOAD_INFO_WITH_TYPES => Some(Group::Upload(UploadGroup::InfoWithTypes)),
            INPUT_BYTES => Some(Group::Bytes(Area::Inputs)),
            INPUT_BIT => Some(Group::Bit(Area::Inputs)),
            INPUT_SIZE => Some(Group::Size(Area::Inputs)),
            OUTPUT_BYTES => Some(Group::Bytes(Area::Outputs)),
            OUTPUT_BIT => Some(Group::Bit(Area::Outputs)),
            OUTPUT_SIZE => Some(Group::Size(Area::Outputs)),
            SUM_READ => Some(Group::Sum(SumGroup::Read)),
            SUM_WRITE => Some(Group::Sum(SumGroup::Write)),
            SUM_READ_WRITE => Some(Group::Sum(SumGroup::ReadWrite)),
            _ => None,
        }
    }
}

/// The group that names an area's bytes.
#[tactic(auto, unfolding(spec_formats::specs::Groups::group_in, spec_formats::specs::Groups::group_of))]
pub fn byte_group(area: Area) -> u32
    ensures number { result ≡ byte_number (area_of area) }
    ensures group { group_of result ≡ Some (AreaBytes (area_of area)) }
{
    match area {
        Area::Inputs => INPUT_BYTES,
        Area::Outputs => OUTPUT_BYTES,
        Area::Memory => MEMORY_BYTES,
        Area::Process => PROCESS_BYTES,
    }
}
