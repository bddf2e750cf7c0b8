//! Sets of words.

ghost use Rattle.std.specs.Prelude.{◌≡◌, ◌≢◌, true, false};
ghost use Rattle.server_words.specs.declared.word.ServerWord.{ServerWord as TheWord};
ghost use Rattle.server_words.specs.Words.{has_server_word};

use crate::word::ServerWord;

/// A set of words: those that are answered.
#[derive(Clone, Copy, Debug, PartialEq, Eq)]
pub struct AnsweredWords {
    srvr: bool,
    stat: bool,
    mntr: bool,
    conf: bool,
    envi: bool,
    dirs: bool,
    cons: bool,
    crst: bool,
    srst: bool,
}

impl AnsweredWords {
    pub fn none() -> AnsweredWords
        ensures { (word : TheWord) → has_server_word result word ≡ false }
    {
        AnsweredWords {
            srvr: false,
            stat: false,
            mntr: false,
            conf: false,
            envi: false,
            dirs: false,
            cons: false,
            crst: false,
            srst: false,
        }
    }

    /// These words, and another one.
    pub fn with(self, word: ServerWord) -> AnsweredWords
        ensures added { has_server_word result word ≡ true }
        ensures others { (other : TheWord) → other ≢ word → has_server_word result other ≡ has_server_word self other }
    {
        match word {
            ServerWord::Srvr => AnsweredWords { srvr: true, ..self },
            ServerWord::Stat => AnsweredWords { stat: true, ..self },
            ServerWord::Mntr => AnsweredWords { mntr: true, ..self },
            ServerWord::Conf => AnsweredWords { conf: true, ..self },
            ServerWord::Envi => AnsweredWords { envi: true, ..self },
            ServerWord::Dirs => AnsweredWords { dirs: true, ..self },
            ServerWord::Cons => AnsweredWords { cons: true, ..self },
            ServerWord::Crst => AnsweredWords { crst: true, ..self },
            ServerWord::Srst => AnsweredWords { srst: true, ..self },
        }
    }

    /// Whether the word is among them.
    pub fn has(self, word: ServerWord) -> bool
        ensures { result ≡ has_server_word self word }
    {
        match word {
            ServerWord::Srvr => self.srvr,
            ServerWord::Stat => self.stat,
            ServerWord::Mntr => self.mntr,
            ServerWord::Conf => self.conf,
            ServerWord::Envi => self.envi,
            ServerWord::Dirs => self.dirs,
            ServerWord::Cons => self.cons,
            ServerWord::Crst => self.crst,
            ServerWord::Srst => self.srst,
        }
    }
}
