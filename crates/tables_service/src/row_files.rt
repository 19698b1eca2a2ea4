//! The registry with the files of a row.
use crate::faults::written_faults;
use crate::profiles::file_name;
use crate::running::only_run;
use gql_ast::Profile;
use gql_parse_sdl::{parse_any, parse_sdl};
use gql_registry::Registry;
use gql_verdict::Meter;
use std::alloc::Global;
use table_rows::{Given, NamedText};

/// A registry with the files of a row.
#[derive(Drop)]
pub struct RowFiles {
    alloc: Global,
    registry: Registry,
    /// Whether the schema files are put.
    is_put: bool,
}

/// Whether a parser takes a text: `sdl`, of schema files, or `any`, of files of any definitions.
pub fn parser_answer(alloc: Global, parser: &str, text: &str) -> Option<String> {
    let name = file_name(alloc, "s")?;
    let is_accepted = match parser {
        "sdl" => parse_sdl(alloc, name, text).is_ok(),
        _ => parse_any(alloc, name, text).is_ok(),
    };
    String::from_str(alloc, if is_accepted { "accepted" } else { "refused" }).ok()
}

impl RowFiles {
    /// Without files.
    pub fn new(alloc: Global) -> Option<RowFiles> {
        RowFiles::under(alloc, Profile::whole_numbers())
    }

    /// Without files, under this profile.
    pub fn under(alloc: Global, profile: Profile) -> Option<RowFiles> {
        Some(RowFiles {
            alloc,
            registry: Registry::with(alloc, profile).ok()?,
            is_put: false,
        })
    }

    /// Puts schema files; `None` if the registry refuses one.
    fn put_all(&mut self, texts: &[NamedText]) -> Option<()> {
        for named in texts {
            let name = file_name(self.alloc, named.name.as_str())?;
            let mut meter = Meter::new(self.alloc);
            let bytes = named.text.as_str().as_bytes();
            self.registry
                .put_schema(name, bytes, None, &mut meter)
                .ok()?;
        }
        Some(())
    }

    /// Puts the schema files of a row, and the document of the lines before the question as the
    /// document file `d`, if there is one; `None` if the registry refuses a file.
    fn put(&mut self, given: &Given) -> Option<()> {
        if !self.is_put {
            self.put_all(given.texts.as_slice())?;
            self.is_put = true;
        }
        if !given.document.is_empty() {
            let mut meter = Meter::new(self.alloc);
            let bytes = given.document.as_str().as_bytes();
            let name = file_name(self.alloc, "d")?;
            self.registry
                .put_document(name, bytes, None, &mut meter)
                .ok()?;
        }
        Some(())
    }

    /// The faults of the report on the row's files: `report`; or what the operation of its document
    /// answers, whole: `runs`; or `refused`.
    pub fn answer(&mut self, given: &Given, question: &str) -> Option<String> {
        if self.put(given).is_none() {
            return String::from_str(self.alloc, "refused").ok();
        }
        if question == "runs" {
            return only_run(self.alloc, &mut self.registry);
        }
        let faults = self.registry.shared_report().ok()?;
        written_faults(self.alloc, faults.as_slice()).ok()
    }
}
