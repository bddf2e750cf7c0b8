//! The events that an observer takes.

ghost use Rattle.std.specs.Prelude.{◌≡◌};
ghost use Rattle.observer_core.specs.declared.event.Event.TheVariants as events;

use values::{Bytes, Str, Text};

/// An input. A client's connection is named by its number.
#[derive(Drop)]
pub enum Event<'a> {
    /// The connection to the leader is open.
    LeaderUp,
    LeaderBytes(Bytes<'a>),
    /// The connection to the leader has ended.
    LeaderEnd,
    /// A client's connection is open. Its client's address is a text such as `127.0.0.1`, where it is known.
    ClientUp(u64, Option<Str<'a>>),
    ClientBytes(u64, Bytes<'a>),
    ClientEnd(u64),
    /// The session with this id has expired.
    Expire(i64),
    /// The tree becomes the base and the log is emptied, while clients are served; otherwise nothing happens.
    Checkpoint,
}

impl<'a> Event<'a> {
    /// A client's connection is open, and its client has this address.
    pub fn client_up(number: u64, address: &'a Option<Text>) -> Event<'a>
        ensures { result ≡ events.ClientUp number address.now }
    {
        match address {
            None => Event::ClientUp(number, None),
            Some(address) => Event::ClientUp(number, Some(Str::new(address.as_str()))),
        }
    }
}
