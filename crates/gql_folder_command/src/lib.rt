//! The command lines of `gqlreg check`, `gqlreg push` and `gqlreg usage`: what their words ask for.
#![tactic(auto)]

mod command;
mod grammar;
mod options;

pub use command::{FolderCommand, FolderCommandFault, is_folder_command, read_folder_command};
pub use options::{CheckOptions, Format, PushOptions, UsageFormat, UsageOptions, UsageQuestion};
