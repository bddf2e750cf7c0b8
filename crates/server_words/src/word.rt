//! The words.

ghost use Rattle.std.specs.Prelude.{◌≡◌, Some, false};
ghost use Rattle.server_words.specs.Words.{server_word_of, lists_clients};
ghost use Rattle.server_words.specs.Texts.{TellsOfNoClient};

/// A four-letter word that a server answers by itself.
#[derive(Clone, Copy, Debug, PartialEq, Eq)]
pub enum ServerWord {
    /// Its state.
    Srvr,
    /// The same, with its clients.
    Stat,
    /// The same for programs, with its watches and ephemeral nodes.
    Mntr,
    /// How it is set.
    Conf,
    /// Its version.
    Envi,
    /// How much is on disk, which is nothing.
    Dirs,
    /// Its clients.
    Cons,
    /// To count anew what goes through its connections.
    Crst,
    /// To count anew what goes through it.
    Srst,
}

impl ServerWord {
    /// The word that the bytes spell, or None.
    pub fn from_bytes(bytes: [u8; 4]) -> Option<ServerWord>
        ensures { result ≡ server_word_of bytes }
    {
        if bytes == *b"srvr" {
            return Some(ServerWord::Srvr);
        }
        if bytes == *b"stat" {
            return Some(ServerWord::Stat);
        }
        if bytes == *b"mntr" {
            return Some(ServerWord::Mntr);
        }
        if bytes == *b"conf" {
            return Some(ServerWord::Conf);
        }
        if bytes == *b"envi" {
            return Some(ServerWord::Envi);
        }
        if bytes == *b"dirs" {
            return Some(ServerWord::Dirs);
        }
        if bytes == *b"cons" {
            return Some(ServerWord::Cons);
        }
        if bytes == *b"crst" {
            return Some(ServerWord::Crst);
        }
        if bytes == *b"srst" {
            return Some(ServerWord::Srst);
        }
        None
    }

    /// The bytes that spell it.
    pub fn letters(self) -> [u8; 4]
        ensures { server_word_of result ≡ Some self }
    {
        match self {
            ServerWord::Srvr => *b"srvr",
            ServerWord::Stat => *b"stat",
            ServerWord::Mntr => *b"mntr",
            ServerWord::Conf => *b"conf",
            ServerWord::Envi => *b"envi",
            ServerWord::Dirs => *b"dirs",
            ServerWord::Cons => *b"cons",
            ServerWord::Crst => *b"crst",
            ServerWord::Srst => *b"srst",
        }
    }

    /// Whether its answer lists the clients. Otherwise it is the same whatever clients are listed.
    pub fn lists_clients(self) -> bool
        ensures listed { result ≡ lists_clients self }
        ensures unseen { result ≡ false → TellsOfNoClient self }
    {
        match self {
            ServerWord::Stat | ServerWord::Cons => true,
            ServerWord::Srvr
            | ServerWord::Mntr
            | ServerWord::Conf
            | ServerWord::Envi
            | ServerWord::Dirs
            | ServerWord::Crst
            | ServerWord::Srst => false,
        }
    }
}
