//! What commands on a folder are to read, and how they are to write.

use clap::ArgMatches;
use gql_ast::Profile;
use gql_command::profile_named;
use std::alloc::{AllocError, Global};

/// How a check is written.
#[derive(Clone, Copy, Debug, PartialEq, Eq)]
pub enum Format {
    /// Lines as a compiler prints them.
    Text,
    /// One JSON value.
    Json,
    /// Annotations of GitHub's build server.
    Github,
    /// SARIF 2.1.0.
    Sarif,
    /// A summary for a pull request.
    Markdown,
    /// One page.
    Html,
}

/// The words of the formats, in the order of `Format`.
pub const FORMATS: [&str; 6] = ["text", "json", "github", "sarif", "markdown", "html"];

impl Format {
    /// The format of this word. Other words are those of `text`.
    fn of(word: &str) -> Format {
        match word {
            "json" => Format::Json,
            "github" => Format::Github,
            "sarif" => Format::Sarif,
            "markdown" => Format::Markdown,
            "html" => Format::Html,
            _ => Format::Text,
        }
    }
}

/// What a check reads, and how it is written.
#[derive(Debug, Drop)]
pub struct CheckOptions {
    /// The folder that is checked.
    pub folder: String,
    /// What is served, and how much, by the registry that is checked for.
    pub profile: Profile,
    /// The folder that it is compared with.
    pub base: Option<String>,
    /// The manifests whose operations are checked with those of the folder.
    pub manifests: Vec<String>,
    /// How the check is written.
    pub format: Format,
    /// The file that it is written to; standard output if there is none.
    pub output: Option<String>,
}

/// The text of an option, if it is given.
fn text_of(
    alloc: Global,
    matches: &ArgMatches<'_>,
    option: &str,
) -> Result<Option<String>, AllocError> {
    match matches.get_str(option) {
        Some(text) => Ok(Some(String::from_str(alloc, text)?)),
        None => Ok(None),
    }
}

/// The texts of an option that may be given more than once.
fn texts_of(
    alloc: Global,
    matches: &ArgMatches<'_>,
    option: &str,
) -> Result<Vec<String>, AllocError> {
    let mut texts = Vec::new(alloc);
    if let Some(given) = matches.get_strs(option) {
        for text in given {
            texts.push(String::from_str(alloc, text)?)?;
        }
    }
    Ok(texts)
}

/// The profile of a command on a folder; `october-2021` if none is named.
fn profile_in(matches: &ArgMatches<'_>) -> Profile {
    match matches.get_str("profile") {
        Some(name) => profile_named(name).unwrap_or(Profile::october_2021()),
        None => Profile::october_2021(),
    }
}

/// What a push reads, and where it puts what it reads.
#[derive(Debug, Drop)]
pub struct PushOptions {
    /// The folder that is pushed.
    pub folder: String,
    /// The profile by which the folder is checked before.
    pub profile: Profile,
    /// The manifests whose operations are pushed with those of the folder.
    pub manifests: Vec<String>,
    /// The server: its host and its port.
    pub server: String,
    /// Whether all files are put, those that were pushed before too.
    pub all: bool,
    /// The file that keeps what was pushed; one in the folder if there is none.
    pub state: Option<String>,
    /// How many seconds to wait for a server that is not there yet.
    pub wait: u64,
    /// Whether nothing is put if the folder has faults.
    pub fail_on_faults: bool,
    /// Whether the files are put although somebody else has edited the registry.
    pub force: bool,
}

/// The options of a push that clap found.
pub fn push_options(alloc: Global, matches: &ArgMatches<'_>) -> Result<PushOptions, AllocError> {
    Ok(PushOptions {
        folder: folder_of(alloc, matches)?,
        profile: profile_in(matches),
        manifests: texts_of(alloc, matches, "manifest")?,
        server: match text_of(alloc, matches, "to")? {
            Some(server) => server,
            None => String::from_str(alloc, "127.0.0.1:8080")?,
        },
        all: matches.get_flag("all"),
        state: text_of(alloc, matches, "state")?,
        wait: matches.get_one::<u64>("wait").unwrap_or(0),
        fail_on_faults: matches.get_flag("fail-on-faults"),
        force: matches.get_flag("force"),
    })
}

/// The folder of a command.
fn folder_of(alloc: Global, matches: &ArgMatches<'_>) -> Result<String, AllocError> {
    match text_of(alloc, matches, "DIR")? {
        Some(folder) => Ok(folder),
        None => String::from_str(alloc, "."),
    }
}

/// The options of a check that clap found.
pub fn check_options(alloc: Global, matches: &ArgMatches<'_>) -> Result<CheckOptions, AllocError> {
    let folder = folder_of(alloc, matches)?;
    let format = match matches.get_str("format") {
        Some(word) => Format::of(word),
        None => Format::Text,
    };
    Ok(CheckOptions {
        folder,
        profile: profile_in(matches),
        base: text_of(alloc, matches, "base")?,
        manifests: texts_of(alloc, matches, "manifest")?,
        format,
        output: text_of(alloc, matches, "output")?,
    })
}

/// How an answer about the use of a schema is written.
#[derive(Clone, Copy, Debug, PartialEq, Eq)]
pub enum UsageFormat {
    /// Lines for a terminal.
    Text,
    /// One JSON value.
    Json,
}

/// The words of the formats of an answer about the use of a schema, in the order of `UsageFormat`.
pub const USAGE_FORMATS: [&str; 2] = ["text", "json"];

/// What is asked about the use of a schema.
#[derive(Debug, Drop)]
pub enum UsageQuestion {
    /// Who reads the part of the schema that this word names.
    ReadersOf(String),
    /// Which parts of the schema nobody reads.
    Unread,
}

/// What is asked about the use of a schema, of which folder, and how the answer is written.
#[derive(Debug, Drop)]
pub struct UsageOptions {
    /// The folder whose schema it is.
    pub folder: String,
    /// The profile of the registry that is asked about.
    pub profile: Profile,
    /// The manifests whose operations count with those of the folder.
    pub manifests: Vec<String>,
    /// What is asked.
    pub question: UsageQuestion,
    /// How the answer is written.
    pub format: UsageFormat,
}

/// The options of a question about the use of a schema that clap found.
pub fn usage_options(alloc: Global, matches: &ArgMatches<'_>) -> Result<UsageOptions, AllocError> {
    let question = match text_of(alloc, matches, "PART")? {
        Some(part) => UsageQuestion::ReadersOf(part),
        None => UsageQuestion::Unread,
    };
    let format = match matches.get_str("format") {
        Some("json") => UsageFormat::Json,
        _ => UsageFormat::Text,
    };
    Ok(UsageOptions {
        folder: folder_of(alloc, matches)?,
        profile: profile_in(matches),
        manifests: texts_of(alloc, matches, "manifest")?,
        question,
        format,
    })
}
