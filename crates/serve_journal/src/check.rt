//! What a server would do by a configuration file.

use crate::settings_line::SettingsLine;
use serve_config::FileLines;
use serve_failures::Failure;
use serve_options::Options;
use std::alloc::Global;
use zoo_config::{Entry, Meaning, meaning_of};

// Prints a line for an entry that isn't followed. Returns what its key means.
fn print_entry<R: Print>(rt: &R, name: &str, entry: &Entry) -> Result<Meaning, Failure> {
    let line = entry.line;
    let key = entry.key.as_str();
    let meaning = meaning_of(key, entry.value.as_str());
    if meaning != Meaning::Taken {
        println!(rt; "{name}:{line}: {key} {meaning}")?;
    }
    Ok(meaning)
}

/// Prints a line for each line of the file that isn't followed, and the options that say the same as the others. Fails
/// if a key is unknown.
pub fn print_check<R: Print>(
    rt: &R,
    alloc: Global,
    options: &Options<'_>,
    lines: FileLines<'_>,
) -> Result<(), Failure> {
    let FileLines { name, entries } = lines;
    let mut unknown = 0;
    for entry in entries {
        if print_entry(rt, name, entry)? == Meaning::Unknown {
            unknown = entry.line;
        }
    }
    let port = options.client.port;
    let settings = SettingsLine { options, port };
    println!(rt; "observer serve {settings}")?;
    if unknown == 0 {
        return Ok(());
    }
    Err(Failure::in_file(alloc, name, unknown, &"unknown key"))
}
