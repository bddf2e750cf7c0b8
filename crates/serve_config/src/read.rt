//! A configuration file, and what it names.

use serve_failures::{Failure, Step};
use serve_options::{
    Filed, Given, Name, OptionError, Options, filed_by, given_by, has_option, options_over,
    value_given,
};
use std::alloc::Global;
use std::io::Read;
use std::rt::Files;
use std::{fs, io};
use zoo_config::{ConfigError, Entry, parse, text_of, value_in};

/// The lines of a file, of which some aren't followed.
#[derive(Clone, Copy)]
pub struct FileLines<'a> {
    pub name: &'a str,
    pub entries: &'a [Entry],
}

impl<'a> FileLines<'a> {
    /// There is no file.
    pub fn none() -> FileLines<'a> {
        FileLines {
            name: "",
            entries: &[],
        }
    }
}

// Whether what is wrong is in the file: none of the words says it.
fn is_in_file(words: &[String], error: &OptionError<'_>) -> bool {
    match error {
        OptionError::Invalid { name, .. } => value_given(words, *name).is_none(),
        OptionError::CrossedTimeouts { .. } => {
            value_given(words, Name::MinSessionTimeout).is_none()
                && value_given(words, Name::MaxSessionTimeout).is_none()
        }
        _ => false,
    }
}

/// A file that was read, and what it sets.
#[derive(Drop)]
pub struct ReadFile<'a> {
    name: &'a str,
    entries: Vec<Entry>,
    filed: Vec<Filed>,
}

fn bytes_of<R: Files>(rt: &R, alloc: Global, name: &str) -> io::Result<Vec<u8>> {
    let mut bytes = Vec::new(alloc);
    fs::open(rt, name)?.read_to_end(&mut bytes)?;
    Ok(bytes)
}

// The text of a file.
fn text_in<R: Files>(rt: &R, alloc: Global, name: &str) -> Result<String, Failure> {
    match bytes_of(rt, alloc, name) {
        Ok(bytes) => Ok(text_of(alloc, bytes.as_slice())?),
        Err(error) => Err(Failure::system(alloc, Step::Open, &name, error)),
    }
}

// What is wrong with a file.
fn wrong(alloc: Global, name: &str, error: ConfigError) -> Failure {
    match error {
        ConfigError::NoMemory => Failure::NoMemory,
        ConfigError::Bad(bad) => Failure::in_file(alloc, name, bad.line, &bad.reason),
    }
}

// The entries of a file.
fn entries_in<R: Files>(rt: &R, alloc: Global, name: &str) -> Result<Vec<Entry>, Failure> {
    let text = text_in(rt, alloc, name)?;
    match parse(alloc, text.as_str()) {
        Ok(entries) => Ok(entries),
        Err(error) => Err(wrong(alloc, name, error)),
    }
}

// The id that is given, or that of `myid` in the folder of the data.
fn id_of<R: Files>(
    rt: &R,
    alloc: Global,
    words: &[String],
    entries: &[Entry],
) -> Result<Option<String>, Failure> {
    if let Some(id) = value_given(words, Name::Id) {
        return Ok(Some(String::from_str(alloc, id)?));
    }
    let Some(folder) = value_in(entries, "dataDir") else {
        return Ok(None);
    };
    let name = format!(in alloc; "{folder}/myid")?;
    let text = text_in(rt, alloc, name.as_str())?;
    Ok(Some(String::from_str(alloc, text.as_str().trim())?))
}

// What the entries set; the servers are those of another file, if they name one.
fn filed_in<R: Files>(
    rt: &R,
    alloc: Global,
    words: &[String],
    name: &str,
    entries: &[Entry],
) -> Result<Vec<Filed>, Failure> {
    let id = id_of(rt, alloc, words, entries)?;
    let id = match &id {
        Some(id) => Some(id.as_str()),
        None => None,
    };
    let is_leader_only = has_option(words, "--leader-only");
    let (filed, name) = match value_in(entries, "dynamicConfigFile") {
        None => (filed_by(alloc, entries, entries, id, is_leader_only), name),
        Some(other) => {
            let listed = entries_in(rt, alloc, other)?;
            (
                filed_by(alloc, entries, listed.as_slice(), id, is_leader_only),
                other,
            )
        }
    };
    match filed {
        Ok(filed) => Ok(filed),
        Err(error) => Err(wrong(alloc, name, error)),
    }
}

/// Reads a file, and what it names. The words are those after `serve`.
pub fn read_file<'a, R: Files>(
    rt: &R,
    alloc: Global,
    words: &[String],
    name: &'a str,
) -> Result<ReadFile<'a>, Failure> {
    let entries = entries_in(rt, alloc, name)?;
    let filed = filed_in(rt, alloc, words, name, entries.as_slice())?;
    Ok(ReadFile {
        name,
        entries,
        filed,
    })
}

impl<'a> ReadFile<'a> {
    /// What the file sets, beside the words.
    pub fn given(&self, alloc: Global, words: &[String]) -> Result<Vec<Given<'_>>, Failure> {
        let has_leader = value_given(words, Name::Leader).is_some();
        Ok(given_by(alloc, self.filed.as_slice(), has_leader)?)
    }

    /// The lines of the file.
    pub fn lines(&self) -> FileLines<'_> {
        FileLines {
            name: self.name,
            entries: self.entries.as_slice(),
        }
    }

    /// The options that the words give, and beside them the file.
    pub fn options<'b>(
        &self,
        alloc: Global,
        words: &'b [String],
        given: &[Given<'b>],
    ) -> Result<Options<'b>, Failure> {
        match options_over(alloc, words, given) {
            Ok(options) => Ok(options),
            Err(error) => Err(self.failure(alloc, words, &error)),
        }
    }

    // What is wrong with the options: with a value that is in the file, or with the words.
    fn failure(&self, alloc: Global, words: &[String], error: &OptionError<'_>) -> Failure {
        if is_in_file(words, error) {
            return Failure::in_file(alloc, self.name, 0, error);
        }
        Failure::of_options(alloc, error)
    }
}
