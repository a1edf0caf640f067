//! Which version of the program this is.

/// The version, as `--version` prints it behind the program's name.
pub const VERSION: &str = "0.1.0";
