//! The answer to each word.

ghost use Rattle.std.specs.Prelude.{◌≡◌, ◌++◌, List, ℕ, Ok, false, true, OnOk, OnErr, IfOk, IfSome, IfNone, is_some};
ghost use Rattle.std.specs.List.{flat_map};
ghost use Rattle.four_letter.specs.Words.{word_of};
ghost use Rattle.four_letter.specs.Inner.Gathered.{watched_lines};
ghost use Rattle.four_letter.specs.Texts.{reply_text, srvr_text, mntr_text, wchs_text, wchp_text, wchc_text, node_count, session_line, path_line};

use crate::dump::put_dump;
use crate::figures::{Figures, WatchRow};
use crate::put::{put, put_count, put_hex, put_id, put_path, put_watching};
use crate::watched::{by_path, by_session};
use crate::word::Word;
use std::alloc::Global;
use std::collections::BTreeSet;
use values::NoMemory;
use watch_manager::WatchCounts;

// One more than the greatest number of paths doesn't fit their type.
fn node_count(figures: &Figures<'_>) -> u128
    ensures { result ≡ node_count figures.now }
{
    figures.paths as u128 + 1
}

fn put_srvr(out: &mut Vec<u8>, figures: &Figures<'_>) -> Result<(), NoMemory>
    ensures { OnOk result (out.new.items ≡ out.old.items ++ srvr_text figures.now) }
{
    put_count(out, "Connections: ", figures.connections as u128)?;
    put_hex(out, "Zxid: ", figures.last)?;
    put(out, "Mode: observer\n")?;
    put_count(out, "Node count: ", node_count(figures))
}

fn put_mntr(out: &mut Vec<u8>, figures: &Figures<'_>) -> Result<(), NoMemory>
    ensures { OnOk result (out.new.items ≡ out.old.items ++ mntr_text figures.now) }
{
    put(out, "zk_server_state\tobserver\n")?;
    put_count(
        out,
        "zk_num_alive_connections\t",
        figures.connections as u128,
    )?;
    put_count(out, "zk_znode_count\t", node_count(figures))?;
    put_count(out, "zk_watch_count\t", figures.watched.watches)?;
    put_count(out, "zk_ephemerals_count\t", figures.pairs as u128)
}

fn put_wchs(out: &mut Vec<u8>, watched: &WatchCounts) -> Result<(), NoMemory>
    ensures { OnOk result (out.new.items ≡ out.old.items ++ wchs_text watched.now) }
{
    put_watching(out, watched.connections, watched.paths)?;
    put_count(out, "Total watches:", watched.watches)
}

fn put_sessions(out: &mut Vec<u8>, sessions: &BTreeSet<i64>) -> Result<(), NoMemory>
    ensures { OnOk result
        (out.new.items ≡ out.old.items ++ flat_map session_line sessions.now.keys) }
{
    for session in sessions {
        put_hex(out, "\t", *session)?;
    }
    Ok(())
}

fn put_wchp(out: &mut Vec<u8>, alloc: Global, rows: &[WatchRow<'_>]) -> Result<(), NoMemory>
    ensures { OnOk result (out.new.items ≡ out.old.items ++ wchp_text rows.now) }
{
    let by_path = by_path(alloc, rows)?;
    for (path, sessions) in &by_path {
        put(out, *path)?;
        put(out, "\n")?;
        put_sessions(out, sessions)?;
    }
    Ok(())
}

fn put_watched(out: &mut Vec<u8>, paths: &BTreeSet<&str>) -> Result<(), NoMemory>
    ensures { OnOk result (out.new.items ≡ out.old.items ++ watched_lines paths.now.keys) }
{
    for path in paths {
        put_path(out, *path)?;
    }
    Ok(())
}

fn put_wchc(out: &mut Vec<u8>, alloc: Global, rows: &[WatchRow<'_>]) -> Result<(), NoMemory>
    ensures { OnOk result (out.new.items ≡ out.old.items ++ wchc_text rows.now) }
{
    let by_session = by_session(alloc, rows)?;
    for (session, paths) in &by_session {
        put_id(out, *session, "\n")?;
        put_watched(out, paths)?;
    }
    Ok(())
}

fn put_text(
    out: &mut Vec<u8>,
    alloc: Global,
    word: Word,
    figures: &Figures<'_>,
) -> Result<(), NoMemory>
    ensures { OnOk result (out.new.items ≡ out.old.items ++ reply_text word figures.now) }
{
    match word {
        Word::Ruok => put(out, "imok"),
        Word::Isro if figures.serving => put(out, "rw"),
        Word::Isro => put(out, "null"),
        _ if !figures.serving => put(out, "not serving\n"),
        Word::Srvr => put_srvr(out, figures),
        Word::Mntr => put_mntr(out, figures),
        Word::Wchs => put_wchs(out, &figures.watched),
        Word::Wchp => put_wchp(out, alloc, figures.watches.as_slice()),
        Word::Wchc => put_wchc(out, alloc, figures.watches.as_slice()),
        Word::Dump => put_dump(out, alloc, figures.timeouts.get(), figures.ephemerals.get()),
    }
}

/// Appends the answer to a word and returns true, or returns false if the bytes spell no word. A refused allocation
/// leaves `out` as it was.
pub fn answer(word: [u8; 4], figures: &Figures<'_>, out: &mut Vec<u8>) -> Result<bool, NoMemory>
    ensures known { IfOk result (λ known. known ≡ is_some (word_of word)) }
    ensures text { IfSome (word_of word)
        (λ w. OnOk result (out.new.items ≡ out.old.items ++ reply_text w figures.now)) }
    ensures unknown { IfNone (word_of word) (result ≡ Ok false) }
    ensures untouched { IfNone (word_of word) (out.new.items ≡ out.old.items) }
    ensures err { OnErr result (out.new.items ≡ out.old.items) }
{
    match Word::from_bytes(word) {
        None => return Ok(false),
        Some(word) => {
            let alloc = *out.allocator();
            let mut text = Vec::new(alloc);
            put_text(&mut text, alloc, word, figures)?;
            out.extend_from_slice(text.as_slice())?;
            Ok(true)
        }
    }
}
