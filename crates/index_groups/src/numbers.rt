//! The numbers of all index groups, once for server and client. Beckhoff Information System, "Index Group/Offset
//! Specification"; beside each the constant of the ADS libraries.

ghost use Rattle.std.specs.Prelude.{◌≡◌, [], ◌∷◌, map};
ghost use Rattle.spec_formats.specs.Groups.{GroupRow, group_table};

/// PLCADS_IGR_RWM: bytes of the memory area.
pub const MEMORY_BYTES: u32 = 0x4020;

/// PLCADS_IGR_RWMX: a bit of the memory area.
pub const MEMORY_BIT: u32 = 0x4021;

/// PLCADS_IGR_RMSIZE: the size of the memory area.
pub const MEMORY_SIZE: u32 = 0x4025;

/// PLCADS_IGR_RWDB: bytes of the data area.
pub const PROCESS_BYTES: u32 = 0x4040;

/// PLCADS_IGR_RDSIZE: the size of the data area.
pub const PROCESS_SIZE: u32 = 0x4045;

/// ADSIGRP_SYM_HNDBYNAME: a handle of what a name leads to.
pub const HANDLE_BY_NAME: u32 = 0xF003;

/// ADSIGRP_SYM_VALBYNAME: the value of what a name leads to.
pub const VALUE_BY_NAME: u32 = 0xF004;

/// ADSIGRP_SYM_VALBYHND: a value; the offset is the handle.
pub const VALUE_BY_HANDLE: u32 = 0xF005;

/// ADSIGRP_SYM_RELEASEHND: the end of a handle, which is the data.
pub const RELEASE_HANDLE: u32 = 0xF006;

/// ADSIGRP_SYM_INFOBYNAME: byte group, offset and length of what a name leads to.
pub const INFO_BY_NAME: u32 = 0xF007;

/// ADSIGRP_SYM_VERSION: the symbol version.
pub const SYMBOL_VERSION: u32 = 0xF008;

/// ADSIGRP_SYM_INFOBYNAMEEX: the symbol entry of what a name leads to.
pub const EXTENDED_INFO_BY_NAME: u32 = 0xF009;

/// ADSIGRP_SYM_UPLOAD: the entries of all symbols.
pub const SYMBOL_UPLOAD: u32 = 0xF00B;

/// ADSIGRP_SYM_UPLOADINFO: how many symbols there are, and the size of their upload.
pub const UPLOAD_INFO: u32 = 0xF00C;

/// ADSIGRP_SYM_DT_UPLOAD: the entries of all named types.
pub const TYPE_UPLOAD: u32 = 0xF00E;

/// ADSIGRP_SYM_UPLOADINFO2: the same numbers of symbols and of types.
pub const UPLOAD_INFO_WITH_TYPES: u32 = 0xF00F;

/// ADSIGRP_IOIMAGE_RWIB: bytes of the inputs.
pub const INPUT_BYTES: u32 = 0xF020;

/// ADSIGRP_IOIMAGE_RWIX: a bit of the inputs.
pub const INPUT_BIT: u32 = 0xF021;

/// ADSIGRP_IOIMAGE_RISIZE: the size of the inputs.
pub const INPUT_SIZE: u32 = 0xF025;

/// ADSIGRP_IOIMAGE_RWOB: bytes of the outputs.
pub const OUTPUT_BYTES: u32 = 0xF030;

/// ADSIGRP_IOIMAGE_RWOX: a bit of the outputs.
pub const OUTPUT_BIT: u32 = 0xF031;

/// ADSIGRP_IOIMAGE_ROSIZE: the size of the outputs.
pub const OUTPUT_SIZE: u32 = 0xF035;

/// ADSIGRP_SUMUP_READ: reads in one request; the offset is the number of parts.
pub const SUM_READ: u32 = 0xF080;

/// ADSIGRP_SUMUP_WRITE: writes in one request; the offset is the number of parts.
pub const SUM_WRITE: u32 = 0xF081;

/// ADSIGRP_SUMUP_READWRITE: reads and writes in one request; the offset is the number of parts.
pub const SUM_READ_WRITE: u32 = 0xF082;

/// These numbers are those of the table of groups in the definitions, each at its group, and there is no other.
pub fn numbers_are_defined()
    ensures { map (λ (r : GroupRow). r.number) group_table
        ≡ MEMORY_BYTES ∷ MEMORY_BIT ∷ MEMORY_SIZE ∷ PROCESS_BYTES ∷ PROCESS_SIZE
        ∷ HANDLE_BY_NAME ∷ VALUE_BY_NAME ∷ VALUE_BY_HANDLE ∷ RELEASE_HANDLE ∷ INFO_BY_NAME ∷ SYMBOL_VERSION
        ∷ EXTENDED_INFO_BY_NAME ∷ SYMBOL_UPLOAD ∷ UPLOAD_INFO ∷ TYPE_UPLOAD ∷ UPLOAD_INFO_WITH_TYPES
        ∷ INPUT_BYTES ∷ INPUT_BIT ∷ INPUT_SIZE ∷ OUTPUT_BYTES ∷ OUTPUT_BIT ∷ OUTPUT_SIZE
        ∷ SUM_READ ∷ SUM_WRITE ∷ SUM_READ_WRITE ∷ [] }
{}
