//! What a push of a folder to a registry puts and removes, the requests for it, and their answers.
#![tactic(auto)]

mod answer;
mod batch;
mod body;
mod depth;
mod edits;
pub mod laws;
mod progress;
mod report;
mod request;
mod state;
mod sum;
mod unserved;

pub use answer::{AnswerSpan, answer_in};
pub use batch::{batch_request, trial_request};
pub use body::{Reply, reply_in};
pub use edits::{Edit, Resource, plan, pushed_after, resources_of, to_put_again};
pub use progress::{Progress, Sent, Stop};
pub use report::{FaultOwner, Report, report_in};
pub use request::{write_edit, write_report};
pub use state::{PushState, read_state};
pub use unserved::{FolderCheck, Unserved, unserved_by};
