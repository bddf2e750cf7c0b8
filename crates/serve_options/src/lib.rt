//! The command line of `serve`.
//!
//! `row` has one table of the options, a row for each: its name, what its value may be, its default and what it is for.
//! The words are read by it (`given`, `value`, `command`), and it is the text of `serve --help` (`listing`), so neither
//! has an option that the other misses. What is wrong with a command line is an [`OptionError`], which names the
//! option.
//!
//! ```text
//! match command_of(alloc, words) {
//!     Ok(Command::Serve(options)) => options.tick,       // 2000, or what --tick says
//!     Ok(Command::Help) => help(alloc)?,
//!     Ok(Command::Version) => VERSION_LINE,
//!     Err(error) => error                                // its text is one line: --id 300: 1 to 255
//! }
//! ```
#![tactic(auto)]

mod command;
mod ensemble;
mod error;
mod filed;
mod given;
mod listing;
mod near;
mod row;
mod value;
mod words;

pub use command::{Command, ConfigFile, Options, Servers, command_of, has_option, options_over};
pub use error::OptionError;
pub use filed::{Filed, filed_by, given_by, value_given};
pub use given::Given;
pub use listing::help;
pub use row::{Bounds, Kind, Name, Row, Without};
pub use value::{Address, LogFormat, release_of};
pub use words::Words;

/// The version of the program.
pub const VERSION: &str = "0.4.0";

/// The line of `serve --version`, and the toolchain's line below it.
pub const VERSION_LINES: &str =
    "kezhundam 0.4.0, protocol of ZooKeeper 3.4\nrattle logic dac8208d650f15bf\n";
