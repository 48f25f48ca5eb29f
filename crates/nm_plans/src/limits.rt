//! The limits that plans keep. The script of a plan then keeps those of scripts.

/// The greatest name of a request.
pub const MAX_REQUEST: u16 = 4095;

/// The greatest tag.
pub const MAX_TAG: u16 = 2047;

/// The greatest context.
pub const MAX_CONTEXT: u8 = 127;

/// The most parts of a partitioned request, which has at least 1.
pub const MAX_PARTS: u8 = 16;
