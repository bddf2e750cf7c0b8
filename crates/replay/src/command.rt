//! The command line.

ghost use Rattle.std.specs.Prelude.{◌≡◌, map, string_bytes};
ghost use Rattle.replay.specs.Command.{source_of, with_option, limits_of, limits_after, command_of};

use batcher::Limits;
use observer_core::default_limits;
use texts::number_up_to;
use values::Str;

/// The source of a script.
#[derive(Drop)]
pub enum Source<'a> {
    /// Standard input.
    Input,
    /// The file with this name.
    File(Str<'a>),
}

/// The command of a command line.
#[derive(Drop)]
pub enum Command<'a> {
    /// Replay a script.
    Replay {
        source: Source<'a>,
        /// The limits on what is done at once. What is printed depends on none of them.
        limits: Limits,
    },
    /// Audit the node at this path, after a script.
    Audit(Source<'a>, Str<'a>),
}

fn source_of(name: &str) -> Source<'_>
    ensures { result ≡ source_of name.now }
{
    if name == "-" {
        return Source::Input;
    }
    Source::File(Str::new(name))
}

// The options of a replay. Each is None until it is given.
#[derive(Clone, Copy, Default)]
struct GivenLimits {
    workers: Option<u64>,
    batch: Option<u64>,
}

impl GivenLimits {
    // Takes one more option. Returns None if it is unknown, or was given already.
    fn with_option(self, name: &str, number: u64) -> Option<GivenLimits>
        ensures { result ≡ with_option self name.now number }
    {
        if name == "--workers" {
            if self.workers.is_some() {
                return None;
            }
            return Some(GivenLimits {
                workers: Some(number),
                batch: self.batch,
            });
        }
        if name == "--batch" {
            if self.batch.is_some() {
                return None;
            }
            return Some(GivenLimits {
                workers: self.workers,
                batch: Some(number),
            });
        }
        None
    }

    // The limits, if each is within its bounds.
    fn limits(self) -> Option<Limits>
        ensures { result ≡ limits_of self }
    {
        let default = default_limits();
        let workers = self.workers.unwrap_or(default.workers() as u64);
        let batch = self.batch.unwrap_or(default.batch() as u64);
        Limits::new(workers as usize, batch as usize, default.groups()).ok()
    }
}

// The limits that the options after a script set: pairs of a name and a number.
fn limits_after(options: &[String]) -> Option<Limits>
    ensures { result ≡ limits_after (map string_bytes options.now) }
{
    let mut given = GivenLimits::default();
    let mut rest = options;
    while let [name, text, others @ ..] = rest {
        let number = number_up_to(u64::MAX, text.as_bytes())?;
        given = given.with_option(name.as_str(), number)?;
        rest = others;
    }
    if !rest.is_empty() {
        return None;
    }
    given.limits()
}

/// Parses the words after the program's name; None if they aren't a command line.
pub fn command_of(words: &[String]) -> Option<Command<'_>>
    ensures { result ≡ command_of (map string_bytes words.now) }
{
    match words {
        [] => Some(Command::Replay {
            source: Source::Input,
            limits: default_limits(),
        }),
        [command, name, options @ ..] if command.as_str() == "replay" => {
            let limits = limits_after(options)?;
            Some(Command::Replay {
                source: source_of(name.as_str()),
                limits,
            })
        }
        [command, name, path] if command.as_str() == "audit" => Some(Command::Audit(
            source_of(name.as_str()),
            Str::new(path.as_str()),
        )),
        _ => None,
    }
}
