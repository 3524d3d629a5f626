//! The length of a chunk's header, which jfr_header and jfr_frame share.

/// The number of bytes of a chunk's header. The records start after them.
pub const HEADER_LEN: usize = 68;
