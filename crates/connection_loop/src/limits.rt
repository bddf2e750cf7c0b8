//! How long a client's connection may say nothing, or not read, and what it may send: which four-letter words, and the
//! requests of which dialect.

ghost use Rattle.std.specs.Prelude.{◌≡◌, ◌≢◌, Some, true, false, not};
ghost use Rattle.four_letter.specs.declared.word.Word.{Word as TheWord};
ghost use Rattle.four_letter.specs.Words.{word_of};
ghost use Rattle.settings.specs.Dialects.{default_dialect};
ghost use Rattle.connection_loop.specs.Limits.{has_word, allows_word, names_sessions};

use four_letter::Word;
use settings::Dialect;

/// A set of four-letter words.
#[derive(Clone, Copy, Debug, PartialEq, Eq)]
pub struct AllowedWords {
    ruok: bool,
    isro: bool,
    srvr: bool,
    mntr: bool,
    wchs: bool,
    wchp: bool,
    wchc: bool,
    dump: bool,
}

impl AllowedWords {
    /// All words that an observer answers.
    pub fn all() -> AllowedWords
        ensures { (word : TheWord) → has_word result word ≡ true }
    {
        AllowedWords {
            ruok: true,
            isro: true,
            srvr: true,
            mntr: true,
            wchs: true,
            wchp: true,
            wchc: true,
            dump: true,
        }
    }

    pub fn none() -> AllowedWords
        ensures { (word : TheWord) → has_word result word ≡ false }
    {
        AllowedWords {
            ruok: false,
            isro: false,
            srvr: false,
            mntr: false,
            wchs: false,
            wchp: false,
            wchc: false,
            dump: false,
        }
    }

    /// These words, and the one that the bytes spell. Bytes that spell none add nothing.
    pub fn with(self, bytes: [u8; 4]) -> AllowedWords
        ensures added { (word : TheWord) → word_of bytes ≡ Some word → has_word result word ≡ true }
        ensures others { (word : TheWord) → word_of bytes ≢ Some word
            → has_word result word ≡ has_word self word }
    {
        let Some(word) = Word::from_bytes(bytes) else {
            return self;
        };
        match word {
            Word::Ruok => AllowedWords { ruok: true, ..self },
            Word::Isro => AllowedWords { isro: true, ..self },
            Word::Srvr => AllowedWords { srvr: true, ..self },
            Word::Mntr => AllowedWords { mntr: true, ..self },
            Word::Wchs => AllowedWords { wchs: true, ..self },
            Word::Wchp => AllowedWords { wchp: true, ..self },
            Word::Wchc => AllowedWords { wchc: true, ..self },
            Word::Dump => AllowedWords { dump: true, ..self },
        }
    }

    /// Whether the bytes spell one of these words.
    pub fn allows(self, bytes: [u8; 4]) -> bool
        ensures { result ≡ allows_word self (word_of bytes) }
    {
        match Word::from_bytes(bytes) {
            None => false,
            Some(Word::Ruok) => self.ruok,
            Some(Word::Isro) => self.isro,
            Some(Word::Srvr) => self.srvr,
            Some(Word::Mntr) => self.mntr,
            Some(Word::Wchs) => self.wchs,
            Some(Word::Wchp) => self.wchp,
            Some(Word::Wchc) => self.wchc,
            Some(Word::Dump) => self.dump,
        }
    }
}

/// The limits of a client's connection. Times are in milliseconds, and 0 is no limit.
#[derive(Clone, Copy, Debug, PartialEq, Eq)]
pub struct SessionLimits {
    /// The connection is closed if its connect wasn't answered for so long after it was opened.
    pub unconnected: u64,
    /// It is closed if it has bytes to write, and the socket has taken none of them for so long.
    pub unread: u64,
    /// The same limit once the connection is to close.
    pub closing: u64,
    /// A four-letter word that isn't among these is refused by a line of text.
    pub words: AllowedWords,
    /// The dialect of its frames: which of them are for the leader depends on it.
    pub dialect: Dialect,
}

impl SessionLimits {
    /// No limits.
    pub fn none() -> SessionLimits
        ensures times { (result.unconnected ≡ 0) × (result.unread ≡ 0) × (result.closing ≡ 0) }
        ensures words { (word : TheWord) → has_word result.words word ≡ true }
        ensures dialect { result.dialect ≡ default_dialect }
    {
        SessionLimits {
            unconnected: 0,
            unread: 0,
            closing: 0,
            words: AllowedWords::all(),
            dialect: Dialect::default(),
        }
    }
}

impl Default for SessionLimits {
    /// 10 s without a session, 40 s without reading and 2 s at the end, and all words but `wchp`, `wchc` and `dump`,
    /// whose answers name sessions.
    fn default() -> SessionLimits
        ensures times { (result.unconnected ≡ 10000) × (result.unread ≡ 40000) × (result.closing ≡ 2000) }
        ensures words { (word : TheWord) → has_word result.words word ≡ not (names_sessions word) }
        ensures dialect { result.dialect ≡ default_dialect }
    {
        SessionLimits {
            unconnected: 10_000,
            unread: 40_000,
            closing: 2000,
            words: AllowedWords {
                wchp: false,
                wchc: false,
                dump: false,
                ..AllowedWords::all()
            },
            dialect: Dialect::default(),
        }
    }
}
