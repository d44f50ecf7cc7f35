/// The most pixels that a target has each way.
pub const MAX_SIDE: u32 = 16_384;
