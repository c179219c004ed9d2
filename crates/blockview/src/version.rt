//! The version.

/// The version of the program.
pub const VERSION: &str = "0.3.0";
