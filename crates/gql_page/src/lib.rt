//! A check of a folder as people read it in a browser: one page of HTML without scripts, and a
//! summary in Markdown for a pull request. The time is linear in what is written and in the lines
//! of the files that the page shows, and the only failure is memory.
#![tactic(auto)]

mod cut;
mod files;
mod lines;
mod markdown;
mod page;
mod parts;
mod style;

pub use markdown::as_markdown;
pub use page::as_html;
