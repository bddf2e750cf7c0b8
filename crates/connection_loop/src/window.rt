//! How many frames of a client may be sent on.

ghost use Rattle.std.specs.Prelude.{◌≡◌, ◌≤◌, not};
ghost use Rattle.connection_loop.specs.Windows.{is_notice, new_window, room_in, is_new, with_sent, with_answer, with_output_noted};

use crate::kind::after_int;
use observer_core::Output;
use std::marker::Model;

/// The most whole frames that are sent on at once. So a client gets at most this many answers in one turn of the hub,
/// however much it sends.
pub(crate) const MOST_AT_ONCE: usize = 16;

/// The most frames that wait for their answers. The engine closes a connection that sends more.
pub(crate) const MOST_OWED: usize = 1024;

/// An answer of more bytes is large.
const SMALL: usize = 65_536;

/// The frames of a client that wait for their answers, and how many more may go. It begins with the first frame alone:
/// nothing is sent on before that connect is answered. Then the number of frames at once doubles after as many small
/// answers in a row, and falls to 1 with a large one.
#[derive(Drop)]
pub struct Window {
    // The number of frames that were sent on and aren't answered.
    owed: usize,
    // Whether an answer has come.
    connected: bool,
    // How many frames may be sent on at once.
    at_once: usize,
    // The number of small answers since that changed.
    small: usize,
}

impl Model for Window {
    ghost use Rattle.std.specs.Prelude.{◌≤◌, ◌<◌};
    ghost use Rattle.connection_loop.specs.Windows.{Window as TheWindow};

    ghost Value = { TheWindow };

    ghost view = { λ w. record { owed = w.owed; connected = w.connected; at_once = w.at_once; small = w.small } };

    ghost invariant = { λ w. (w.owed ≤ 1024) × (1 ≤ w.at_once) × (w.at_once ≤ 16) × (w.small < w.at_once) };
}

// Whether the frame is of a watch event, which answers no frame: both its xid and its zxid are -1.
fn is_notice(frame: &[u8]) -> bool
    ensures { result ≡ is_notice frame.now }
{
    match after_int(frame).first_chunk::<12>() {
        Some(header) => header[0] == 0xff && *header == [0xff; 12],
        None => false,
    }
}

impl Window {
    pub fn new() -> Window
        ensures { result ≡ new_window }
    {
        Window {
            owed: 0,
            connected: false,
            at_once: 1,
            small: 0,
        }
    }

    /// How many frames may be sent on now.
    pub fn room(&self) -> usize
        ensures { result ≡ room_in self.now }
    {
        if !self.connected && self.owed > 0 {
            return 0;
        }
        self.at_once.min(MOST_OWED.saturating_sub(self.owed))
    }

    /// How many frames aren't answered.
    pub fn owed(&self) -> usize
        ensures { result ≡ self.now.owed }
    {
        self.owed
    }

    /// Whether nothing was sent on yet.
    pub fn is_new(&self) -> bool
        ensures { result ≡ is_new self.now }
    {
        self.is_connecting() && self.owed == 0
    }

    /// Whether no answer has come yet.
    pub(crate) fn is_connecting(&self) -> bool
        ensures { result ≡ not self.now.connected }
    {
        !self.connected
    }

    /// Counts frames that are sent on, no more than there is room for.
    pub fn send(&mut self, frames: usize)
        requires { frames ≤ room_in self.old }
        ensures { self.new ≡ with_sent self.old frames }
    {
        self.owed += frames;
    }

    // Counts an answer of this length.
    fn answer(&mut self, len: usize)
        ensures { self.new ≡ with_answer self.old len }
    {
        self.owed = self.owed.saturating_sub(1);
        self.connected = true;
        if len > SMALL {
            self.at_once = 1;
            self.small = 0;
            return;
        }
        self.small += 1;
        if self.small >= self.at_once {
            self.at_once = (self.at_once * 2).min(MOST_AT_ONCE);
            self.small = 0;
        }
    }

    /// Counts an output for the client, if it answers a frame.
    pub(crate) fn note(&mut self, output: &Output)
        ensures { self.new ≡ with_output_noted self.old output.now }
    {
        if let Output::ToClient(_, frame) = output {
            if !is_notice(frame.as_slice()) {
                self.answer(frame.as_slice().len());
            }
        }
    }
}
