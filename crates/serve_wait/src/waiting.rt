//! The wait for a server.

ghost use Rattle.std.specs.Prelude.{◌≡◌, ◌≤◌, ◌⊎◌, None, IsSome, map, string_bytes};
ghost use Rattle.serve_wait.specs.Command.{wait_command_of};
ghost use Rattle.serve_wait.specs.Ending.{wait_status_of};

use crate::asking::ask_server;
use crate::command::{WaitCommand, wait_command_of};
use crate::deadline::{Deadline, pause_limit};
use crate::ending::{Obstacle, WaitEnding};
use std::io::Write;
use std::net::Net;
use std::thread;
use std::time::{Clock, Duration};
use values::NoMemory;

// The most tries in a second, by the pauses between them.
const TRIES: u64 = 5;

// Asks the server until it serves clients, or until the time is over: then it returns what was in the way.
fn ask_until_served<R: Net + Clock>(
    rt: &R,
    command: &WaitCommand<'_>,
) -> Result<Option<Obstacle>, NoMemory>
    requires { command.now.seconds ≤ 86400 }
{
    let time = Deadline::new(rt, command.seconds * 1000);
    let mut last = None;
    for _ in 0..command.seconds * TRIES {
        let Some(obstacle) = ask_server(rt, command, time)? else {
            return Ok(None);
        };
        let left = time.left(rt);
        if left == 0 {
            // The end of the time may have cut this try short.
            return Ok(Some(last.unwrap_or(obstacle)));
        }
        last = Some(obstacle);
        thread::sleep(rt, Duration::from_millis(pause_limit(left)));
    }
    Ok(Some(last.unwrap_or(Obstacle::NoConnection)))
}

// Waits as a command line asks.
fn wait_by<'a, R: Net + Clock>(rt: &R, command: WaitCommand<'a>) -> WaitEnding<'a>
    requires { command.seconds ≤ 86400 }
    ensures { (wait_status_of result ≡ 0) ⊎ (wait_status_of result ≡ 4) ⊎ (wait_status_of result ≡ 8) }
{
    match ask_until_served(rt, &command) {
        Ok(None) => WaitEnding::Serving,
        Ok(Some(obstacle)) => WaitEnding::Late {
            address: command.address,
            seconds: command.seconds,
            obstacle,
        },
        Err(NoMemory) => WaitEnding::NoMemory,
    }
}

/// Waits as the words after `wait` ask, and returns the exit status. If it isn't 0, the reason is on standard error.
pub fn wait<R: Net + Clock, E: Write>(rt: &R, words: &[String], errors: &mut E) -> u8
    ensures usage { wait_command_of (map string_bytes words.now) ≡ None → result ≡ 2 }
    ensures waited { IsSome (wait_command_of (map string_bytes words.now)) →
        (result ≡ 0) ⊎ (result ≡ 4) ⊎ (result ≡ 8) }
{
    let ending = match wait_command_of(words) {
        Some(command) => wait_by(rt, command),
        None => WaitEnding::Usage,
    };
    // If standard error can't be written, only the status tells the ending.
    let _ = ending.tell(errors);
    ending.status()
}
