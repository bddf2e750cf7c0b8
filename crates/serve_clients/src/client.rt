//! The thread of a client's connection.

use crate::counted::{CountedReader, CountedWriter};
use crate::writing::write_text;
use connection_loop::{Close, ReadsAhead, Rest, SessionLimits, session_loop};
use intake::{Port, PortEnd};
use serve_door::First;
use server_tally::{ClientTally, PacketCount};
use server_words::ServerWord;
use std::alloc::Global;
use std::io::Write;
use std::sync::{Arc, Wait};
use std::time::Clock;
use values::Text;

// Answers a word, as far as the peer reads that in time.
fn tell<T: Wait + Clock, R: Rest, W: Write>(
    rt: &T,
    alloc: Global,
    reader: &mut R,
    writer: &mut W,
    tally: &ClientTally,
    word: ServerWord,
    limit: u64,
) {
    let Ok(text) = tally.text_for(rt, alloc, word) else {
        return;
    };
    write_text(rt, reader, writer, text.as_slice(), limit);
    // What came after the word is taken: where a socket is closed with unread bytes, the answer may be lost.
    let mut unread = [0; 256];
    let _ = reader.read(&mut unread);
}

// The limits of a connection that is so many milliseconds old. One that has no time left has the least.
fn limits_after(limits: SessionLimits, gone: u64) -> SessionLimits {
    if limits.unconnected == 0 {
        return limits;
    }
    SessionLimits {
        unconnected: limits.unconnected.saturating_sub(gone).max(1),
        ..limits
    }
}

/// Serves a client as `session_loop` does, from the first bytes of its connection to its end, but for the words that the
/// server answers by itself: these are answered here, and the engine learns only that a connection came and went. It
/// counts the packets, and the end of the connection, which has been there for so many milliseconds (`waited`).
pub fn client_loop<T: Wait + Clock + Copy, R: Rest + Drop, W: Close>(
    rt: &T,
    alloc: Global,
    reader: R,
    writer: W,
    port: Port,
    address: Option<Text>,
    first: First,
    waited: u64,
    limits: SessionLimits,
    ahead: Arc<ReadsAhead, Global>,
    tally: ClientTally,
) -> PortEnd {
    let mut reader = reader;
    let mut writer = writer;
    let mut first = first;
    if let Some(word) = first.word() {
        tell(
            rt,
            alloc,
            &mut reader,
            &mut writer,
            &tally,
            word,
            limits.closing,
        );
        first = First::nothing();
    }
    let counted = CountedReader {
        rt: *rt,
        reader,
        first,
        tally: tally.share().ok(),
        packets: PacketCount::new(),
    };
    let counting = CountedWriter {
        rt: *rt,
        writer,
        tally: tally.share().ok(),
        packets: PacketCount::new(),
    };
    let limits = limits_after(limits, waited);
    let end = session_loop(rt, alloc, counted, counting, port, address, limits, ahead);
    tally.leave(rt);
    end
}
