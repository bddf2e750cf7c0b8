//! The four-letter words that are answered.

ghost use Rattle.std.specs.Prelude.{◌≡◌, map};
ghost use Rattle.std.specs.List.{list_all};
ghost use Rattle.serve_options.specs.Words.{parts_of, is_four_letter_word, is_among, all_or_none, named_words, each_word};

use std::fmt;

/// Which of the four-letter words are answered.
#[derive(Clone, Copy, Debug, PartialEq, Eq)]
pub struct Words {
    pub ruok: bool,
    pub isro: bool,
    pub srvr: bool,
    pub stat: bool,
    pub mntr: bool,
    pub conf: bool,
    pub envi: bool,
    pub dirs: bool,
    pub wchs: bool,
    pub wchp: bool,
    pub wchc: bool,
    pub dump: bool,
    pub cons: bool,
    pub crst: bool,
    pub srst: bool,
}

const WORDS: [&str; 15] = [
    "ruok", "isro", "srvr", "stat", "mntr", "conf", "envi", "dirs", "wchs", "wchp", "wchc", "dump",
    "cons", "crst", "srst",
];

// Whether a text is one of some words.
fn is_one_of(text: &str, words: &[&str]) -> bool
    ensures { result ≡ is_among text.now (map (λ word. word.now) words.now) }
{
    for word in words {
        if *word == text {
            return true;
        }
    }
    false
}

pub(crate) fn is_word(text: &str) -> bool
    ensures { result ≡ is_four_letter_word text.now }
{
    is_one_of(text, &WORDS)
}

// Whether each part of a text is a word.
fn are_words(text: &str) -> bool
    ensures { result ≡ list_all is_four_letter_word (parts_of text.now) }
{
    text.split(',').all(|part| is_word(part))
}

// Whether a word is among the parts of a text.
fn has(text: &str, word: &str) -> bool
    ensures { result ≡ is_among word.now (parts_of text.now) }
{
    text.split(',').any(|part| part == word)
}

// All words, or none.
fn all_or_none(is_there: bool) -> Words
    ensures { result ≡ all_or_none is_there }
{
    Words {
        ruok: is_there,
        isro: is_there,
        srvr: is_there,
        stat: is_there,
        mntr: is_there,
        conf: is_there,
        envi: is_there,
        dirs: is_there,
        wchs: is_there,
        wchp: is_there,
        wchc: is_there,
        dump: is_there,
        cons: is_there,
        crst: is_there,
        srst: is_there,
    }
}

/// The words that a text names: `all`, `none`, or some of them with commas between. Returns None where it names another
/// one.
pub fn words_of(text: &str) -> Option<Words>
    ensures { result ≡ named_words text.now }
{
    if text == "all" {
        return Some(all_or_none(true));
    }
    if text == "none" {
        return Some(all_or_none(false));
    }
    if !are_words(text) {
        return None;
    }
    Some(Words {
        ruok: has(text, "ruok"),
        isro: has(text, "isro"),
        srvr: has(text, "srvr"),
        stat: has(text, "stat"),
        mntr: has(text, "mntr"),
        conf: has(text, "conf"),
        envi: has(text, "envi"),
        dirs: has(text, "dirs"),
        wchs: has(text, "wchs"),
        wchp: has(text, "wchp"),
        wchc: has(text, "wchc"),
        dump: has(text, "dump"),
        cons: has(text, "cons"),
        crst: has(text, "crst"),
        srst: has(text, "srst"),
    })
}

impl Words {
    /// Each word, and whether it is answered.
    pub fn each(self) -> [(&'static str, bool); 15]
        ensures { map (λ word. (word.0.now, word.1)) result ≡ each_word self }
    {
        [
            ("ruok", self.ruok),
            ("isro", self.isro),
            ("srvr", self.srvr),
            ("stat", self.stat),
            ("mntr", self.mntr),
            ("conf", self.conf),
            ("envi", self.envi),
            ("dirs", self.dirs),
            ("wchs", self.wchs),
            ("wchp", self.wchp),
            ("wchc", self.wchc),
            ("dump", self.dump),
            ("cons", self.cons),
            ("crst", self.crst),
            ("srst", self.srst),
        ]
    }
}

/// Shows the words as `--words` names them.
impl fmt::Display for Words {
    fn fmt<W: fmt::Write>(&self, f: &mut fmt::Formatter<W>) -> fmt::Result {
        if *self == all_or_none(false) {
            return f.write_str("none");
        }
        let mut is_first = true;
        for (word, is_answered) in self.each() {
            if is_answered {
                if !is_first {
                    f.write_str(",")?;
                }
                is_first = false;
                f.write_str(word)?;
            }
        }
        Ok(())
    }
}
