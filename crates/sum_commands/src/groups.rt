//! The index groups of the sums that only the wide server knows.

/// ADSIGRP_SUMUP_READEX: reads in one request, whose results tell their lengths; the offset is the number of parts.
pub const SUM_TOLD_READ: u32 = 0xF083;

/// ADSIGRP_SUMUP_READEX2: the same, and the data of each read is as long as what it gives.
pub const SUM_SHORT_READ: u32 = 0xF084;

/// ADSIGRP_SUMUP_ADDDEVNOTE: additions of notifications in one request; the offset is the number of parts.
pub const SUM_ADD: u32 = 0xF085;

/// ADSIGRP_SUMUP_DELDEVNOTE: deletions of notifications in one request; the offset is the number of parts.
pub const SUM_DELETE: u32 = 0xF086;
