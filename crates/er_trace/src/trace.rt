//! The limits of a trace.

/// The most lines of a trace.
pub const MOST_LINES: u32 = 2_097_152;

/// The most bytes of a line, without its LF.
pub const MOST_LINE_BYTES: usize = 1_024;
