//! The four-letter words.

ghost use Rattle.std.specs.Prelude.{◌≡◌, Some, false};
ghost use Rattle.four_letter.specs.Words.{word_of, needs_watches, needs_counts};
ghost use Rattle.four_letter.specs.Texts.{TellsOfNoWatch, TellsOfWatchesAlone};

/// A four-letter word.
#[derive(Clone, Copy)]
pub enum Word {
    /// Whether the observer runs.
    Ruok,
    /// Whether it serves clients that write, too.
    Isro,
    /// Its state and its size.
    Srvr,
    /// The same with its watches and ephemeral nodes, for programs.
    Mntr,
    /// The number of watches.
    Wchs,
    /// The sessions that watch each path.
    Wchp,
    /// The paths that each session watches.
    Wchc,
    /// The sessions, and their ephemeral nodes.
    Dump,
}

impl Word {
    /// The word that the bytes spell, or None.
    pub fn from_bytes(bytes: [u8; 4]) -> Option<Word>
        ensures { result ≡ word_of bytes }
    {
        if bytes == *b"ruok" {
            return Some(Word::Ruok);
        }
        if bytes == *b"isro" {
            return Some(Word::Isro);
        }
        if bytes == *b"srvr" {
            return Some(Word::Srvr);
        }
        if bytes == *b"mntr" {
            return Some(Word::Mntr);
        }
        if bytes == *b"wchs" {
            return Some(Word::Wchs);
        }
        if bytes == *b"wchp" {
            return Some(Word::Wchp);
        }
        if bytes == *b"wchc" {
            return Some(Word::Wchc);
        }
        if bytes == *b"dump" {
            return Some(Word::Dump);
        }
        None
    }

    /// The bytes that spell it.
    pub fn letters(self) -> [u8; 4]
        ensures { word_of result ≡ Some self }
    {
        match self {
            Word::Ruok => *b"ruok",
            Word::Isro => *b"isro",
            Word::Srvr => *b"srvr",
            Word::Mntr => *b"mntr",
            Word::Wchs => *b"wchs",
            Word::Wchp => *b"wchp",
            Word::Wchc => *b"wchc",
            Word::Dump => *b"dump",
        }
    }

    /// Whether its answer needs the watches themselves, and not only their counts. Otherwise it is the same whatever
    /// watches are listed.
    pub fn needs_watches(self) -> bool
        ensures needed { result ≡ needs_watches self }
        ensures unseen { result ≡ false → TellsOfNoWatch self }
    {
        match self {
            Word::Ruok | Word::Isro | Word::Srvr | Word::Mntr | Word::Wchs | Word::Dump => false,
            Word::Wchp | Word::Wchc => true,
        }
    }

    /// Whether its answer needs the numbers of paths and of connections beside that of watches. Otherwise it is the same
    /// whatever they are.
    pub fn needs_counts(self) -> bool
        ensures needed { result ≡ needs_counts self }
        ensures unseen { result ≡ false → TellsOfWatchesAlone self }
    {
        match self {
            Word::Ruok
            | Word::Isro
            | Word::Srvr
            | Word::Mntr
            | Word::Wchp
            | Word::Wchc
            | Word::Dump => false,
            Word::Wchs => true,
        }
    }
}
