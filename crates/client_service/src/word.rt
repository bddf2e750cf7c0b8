//! Four-letter words: a client may send one before it asks for a session.

ghost use Rattle.std.specs.Prelude.{◌≡◌, ◌<◌, IfOk, IfSome, IfNone, true, take, length};
ghost use Rattle.watch_manager.specs.Counts.{watch_count, counts_of};
ghost use Rattle.four_letter.specs.Words.{needs_watches, needs_counts};
ghost use Rattle.four_letter.specs.Texts.{reply_text};
ghost use Rattle.client_service.specs.Serve.{watch_row_of, watch_rows, figures_with, figures_of, tell_word, word_at};
ghost use Rattle.world.specs.Results.{MakesStep};

use four_letter::{Figures, Lent, WatchRow, Word, answer};
use sessions::Sessions;
use std::alloc::Global;
use values::{Blob, Listed, NoMemory};
use watch_manager::{WatchCounts, Watched};
use world::{Clients, Stage, World};

fn first_four(bytes: &[u8]) -> Option<[u8; 4]>
    ensures some { IfSome result (λ four. four ≡ take 4 bytes.now) }
    ensures none { IfNone result (length bytes.now < 4) }
{
    match bytes {
        [a, b, c, d, ..] => Some([*a, *b, *c, *d]),
        _ => None,
    }
}

/// The four-letter word in a connection's first four bytes; None if they are none, or if the connection has a session
/// or waits for one.
pub(crate) fn word_at(number: u64, world: &World, bytes: &[u8]) -> Option<Word>
    ensures { result ≡ word_at number world.now bytes.now }
{
    let Some(letters) = first_four(bytes) else {
        return None;
    };
    let Some(word) = Word::from_bytes(letters) else {
        return None;
    };
    if !world.clients.pending.is_idle(number) {
        return None;
    }
    match world.clients.sessions.session(number) {
        None => Some(word),
        Some(_) => None,
    }
}

// A watch with the session of its connection. Every connection that watches has a session.
fn row_of<'a>(sessions: &Sessions, watched: Watched<'a>) -> WatchRow<'a>
    ensures { result ≡ watch_row_of sessions.now watched.entry }
{
    let Watched {
        path,
        connection,
        table,
    } = watched;
    WatchRow {
        path,
        connection,
        session: sessions.session(connection).unwrap_or(0),
        table,
    }
}

fn watch_rows(alloc: Global, clients: &Clients) -> Result<Vec<WatchRow<'_>>, NoMemory>
    ensures { IfOk result (λ rows. rows.items ≡ watch_rows clients.now) }
{
    let summary = clients.watches.summary(alloc)?;
    let mut rows = Vec::with_capacity(alloc, summary.len())?;
    for watched in summary {
        rows.push(row_of(&clients.sessions, watched))?;
    }
    Ok(rows)
}

// The watches if the word's answer lists them, otherwise none: clients may have set very many.
fn rows_for(alloc: Global, word: Word, world: &World) -> Result<Vec<WatchRow<'_>>, NoMemory>
    ensures { IfOk result (λ rows. needs_watches word ≡ true → rows.items ≡ watch_rows world.now.clients) }
{
    if !word.needs_watches() {
        return Ok(Vec::new(alloc));
    }
    watch_rows(alloc, &world.clients)
}

// The number of watches, and those of paths and of connections if the word's answer needs them: they aren't kept.
fn counts_for(word: Word, world: &World) -> WatchCounts
    ensures watches { result.watches ≡ watch_count world.now.clients.watches }
    ensures all { needs_counts word ≡ true → result ≡ counts_of world.now.clients.watches }
{
    if word.needs_counts() {
        return world.clients.watches.counts();
    }
    WatchCounts {
        connections: 0,
        paths: 0,
        watches: world.clients.watches.count(),
    }
}

// The figures that the answers to words are made of, with these counts, and these watches listed.
fn figures_with<'a>(
    serving: bool,
    world: &'a World,
    watched: WatchCounts,
    watches: Vec<WatchRow<'a>>,
) -> Figures<'a>
    ensures { result ≡ figures_with serving world.now watched watches.entry.items }
{
    let tree = world.replica.tree();
    Figures {
        serving,
        last: world.replica.learner().last_zxid(),
        connections: world.clients.sessions.count(),
        paths: tree.paths(),
        pairs: tree.ephemerals().count(),
        watched,
        watches: Listed::from_vec(watches),
        timeouts: Lent::new(tree.sessions()),
        ephemerals: Lent::new(tree.ephemerals()),
    }
}

// The figures, but for those that the word's answer doesn't tell.
fn figures_for(
    alloc: Global,
    serving: bool,
    world: &World,
    word: Word,
) -> Result<Figures<'_>, NoMemory>
    ensures { IfOk result
        (λ figures. reply_text word figures ≡ reply_text word (figures_of serving world.now)) }
{
    let rows = rows_for(alloc, word, world)?;
    let watched = counts_for(word, world);
    Ok(figures_with(serving, world, watched, rows))
}

fn answer_of(alloc: Global, serving: bool, world: &World, word: Word) -> Result<Blob, NoMemory>
    ensures { IfOk result (λ bytes. bytes ≡ reply_text word (figures_of serving world.now)) }
{
    let figures = figures_for(alloc, serving, world, word)?;
    let mut bytes = Vec::new(alloc);
    answer(word.letters(), &figures, &mut bytes)?;
    Ok(Blob::from_vec(bytes))
}

/// Answers a four-letter word and closes the connection.
pub(crate) fn tell_word(
    alloc: Global,
    serving: bool,
    number: u64,
    stage: &mut Stage,
    word: Word,
) -> Result<(), NoMemory>
    ensures { MakesStep result stage.old (λ w. tell_word serving number w word) stage.new }
{
    let bytes = answer_of(alloc, serving, &stage.world, word)?;
    stage.send_frame_last(number, Some(bytes))
}
