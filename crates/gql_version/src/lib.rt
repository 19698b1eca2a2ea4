//! The version of the program.
#![tactic(auto)]

/// The version of the program, as `gqlreg --version` prints it and reports name it.
pub const VERSION: &str = "1.0.0";
