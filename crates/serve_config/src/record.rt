//! The file for the record of what comes.

use serve_failures::{Failure, Step};
use serve_options::Options;
use std::alloc::Global;
use std::fs::OpenOptions;
use std::os::unix::fs::OpenOptionsExt;
use std::rt::Files;
use std::{fs, io};

// Creates or empties a file. A new one can be read by its owner alone.
fn create_private<R: Files>(rt: &R, name: &str) -> io::Result<R::File> {
    let mut how = OpenOptions::new();
    how.write(true).create(true).truncate(true).mode(0o600);
    how.open(rt, name)
}

/// Creates or empties the file for the record, if there is to be one. Beside a secret, which the record has too, a new
/// file can be read by its owner alone.
pub fn create_record<R: Files>(
    rt: &R,
    alloc: Global,
    options: &Options<'_>,
) -> Result<Option<R::File>, Failure> {
    let Some(name) = options.record else {
        return Ok(None);
    };
    let created = match options.secret_file {
        Some(_) => create_private(rt, name),
        None => fs::create(rt, name),
    };
    match created {
        Ok(file) => Ok(Some(file)),
        Err(error) => Err(Failure::system(alloc, Step::Open, &name, error)),
    }
}
