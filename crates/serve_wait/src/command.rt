//! The command line.

ghost use Rattle.std.specs.Prelude.{◌≡◌, ◌≤◌, ◌<◌, ℕ, IfSome, map, option_map, string_bytes};
ghost use Rattle.serve_wait.specs.Command.{number_from, parts_around, port_and_host, host_and_port_of, wait_seconds_of, wait_command_of};

use texts::number_up_to;
use values::Str;

/// What a command line asks for: to wait for the server at a host and a port.
#[derive(Drop)]
pub struct WaitCommand<'a> {
    /// The address as it is spelled.
    pub address: Str<'a>,
    pub host: Str<'a>,
    pub port: u16,
    /// How long it may take.
    pub seconds: u64,
}

// A host and a port.
#[derive(Drop)]
struct HostAndPort<'a> {
    host: Str<'a>,
    port: u16,
}

const MOST_PORT: u64 = 65_535;

const DEFAULT_SECONDS: u64 = 60;

// A day.
const MOST_SECONDS: u64 = 86_400;

// The number that a text spells in decimal digits, if it is within the bounds.
fn number_from(least: u64, most: u64, text: &str) -> Option<u64>
    ensures value { result ≡ number_from least most text.now }
    ensures bounds { IfSome result (λ number. (least ≤ number) × (number ≤ most)) }
{
    let number = number_up_to(most, text.as_bytes())?;
    if number < least {
        return None;
    }
    Some(number)
}

// The parts of a text around the first occurrence of an ASCII letter, if there is one.
fn parts_around(letter: char, text: &str) -> Option<(&str, &str)>
    requires { letter < 128 }
    ensures { option_map (λ parts. (parts.0.now, parts.1.now)) result ≡ parts_around letter text.now }
{
    text.split_once(letter)
}

// The host, unless it is empty, and the port that the digits spell.
fn host_with_port<'a>(host: &'a str, digits: &str) -> Option<HostAndPort<'a>>
    ensures { result ≡ port_and_host host.now digits.now }
{
    let port = number_from(1, MOST_PORT, digits)?;
    if host.is_empty() {
        return None;
    }
    Some(HostAndPort {
        host: Str::new(host),
        port: port as u16,
    })
}

// The host and the port that a text spells. A host with colons, which is an IPv6 address, is in brackets.
fn host_and_port_of(text: &str) -> Option<HostAndPort<'_>>
    ensures { result ≡ host_and_port_of text.now }
{
    match parts_around('[', text) {
        None => {
            let (host, digits) = parts_around(':', text)?;
            host_with_port(host, digits)
        }
        Some((before, inner)) => {
            let (host, behind) = parts_around(']', inner)?;
            let (between, digits) = parts_around(':', behind)?;
            if !before.is_empty() || !between.is_empty() {
                return None;
            }
            host_with_port(host, digits)
        }
    }
}

// The seconds that the words after the address set.
fn seconds_of(options: &[String]) -> Option<u64>
    ensures value { result ≡ wait_seconds_of (map string_bytes options.now) }
    ensures bounds { IfSome result (λ seconds. (1 ≤ seconds) × (seconds ≤ 86400)) }
{
    match options {
        [] => Some(DEFAULT_SECONDS),
        [name, number] if name.as_str() == "--seconds" => number_from(
            1,
            MOST_SECONDS,
            number.as_str(),
        ),
        _ => None,
    }
}

/// Parses the words after `wait`; None if they aren't HOST:PORT, or that and `--seconds N`.
pub fn wait_command_of(words: &[String]) -> Option<WaitCommand<'_>>
    ensures value { result ≡ wait_command_of (map string_bytes words.now) }
    ensures bounds { IfSome result (λ command. (1 ≤ command.seconds) × (command.seconds ≤ 86400)) }
{
    match words {
        [] => None,
        [address, options @ ..] => {
            let HostAndPort { host, port } = host_and_port_of(address.as_str())?;
            let seconds = seconds_of(options)?;
            Some(WaitCommand {
                address: Str::new(address.as_str()),
                host,
                port,
                seconds,
            })
        }
    }
}
