//! The options that are given, with their values as they are spelled.

ghost use Rattle.std.specs.Prelude.{◌≡◌, ◌≢◌, map, string_bytes, IfOk, IfSome, IfNone, option_map};
ghost use Rattle.serve_options.specs.declared.row.Name.{Name as OptionName};
ghost use Rattle.serve_options.specs.Rows.{option_word};
ghost use Rattle.serve_options.specs.Given.{given_of, value_of, begins_as_option, IsFirstValue, IsReadOption, IsGivenBy};

use crate::error::OptionError;
use crate::near::nearest;
use crate::row::{Kind, NAMES, Name, Without};
use std::alloc::Global;

/// An option that is given, and its value, if it has one.
#[derive(Clone, Copy, Debug)]
pub struct Given<'a> {
    pub name: Name,
    pub value: Option<&'a str>,
}

// The option of this name.
fn name_of(word: &str) -> Option<Name>
    ensures known { IfSome result (λ name. option_word name ≡ word.now) }
    ensures unknown { IfNone result ((name : OptionName) → option_word name ≢ word.now) }
{
    for name in NAMES {
        if name.row().word == word {
            return Some(name);
        }
    }
    None
}

fn known<'a>(alloc: Global, word: &'a str) -> Result<Name, OptionError<'a>>
    ensures { IfOk result (λ name. option_word name ≡ word.now) }
{
    match name_of(word) {
        Some(name) => Ok(name),
        None => match nearest(alloc, word)? {
            Some(near) => Err(OptionError::Misspelled { word, near }),
            None => Err(OptionError::Unknown(word)),
        },
    }
}

// Whether a word begins as an option does, so that it is no value.
fn begins_as_option(word: &str) -> bool
    ensures { result ≡ begins_as_option word.now }
{
    word.as_bytes().starts_with(b"--")
}

// The first word and those after it, if it is a value.
fn first_value(words: &[String]) -> Option<(&str, &[String])>
    ensures { IfSome result (λ found.
        IsFirstValue (map string_bytes words.now) found.0.now (map string_bytes found.1.now)) }
{
    let (first, rest) = words.split_first()?;
    let value = first.as_str();
    if begins_as_option(value) {
        return None;
    }
    Some((value, rest))
}

// An option that was read, and the words after it.
#[derive(Clone, Copy)]
struct ReadOption<'a> {
    option: Given<'a>,
    rest: &'a [String],
}

// The option of this name, which is followed by these words: its value is the first of them, if it takes one.
fn option_before<'a>(name: Name, words: &'a [String]) -> Result<ReadOption<'a>, OptionError<'a>>
    ensures { IfOk result (λ read.
        IsReadOption name (map string_bytes words.now) read.option (map string_bytes read.rest.now)) }
{
    let alone = ReadOption {
        option: Given { name, value: None },
        rest: words,
    };
    let kind = name.row().kind;
    if kind == Kind::Nothing {
        return Ok(alone);
    }
    match first_value(words) {
        Some((value, rest)) => Ok(ReadOption {
            option: Given {
                name,
                value: Some(value),
            },
            rest,
        }),
        None if kind == Kind::Level => Ok(alone),
        None => Err(OptionError::NoValue(name)),
    }
}

/// The option of this name among those that are given.
pub(crate) fn find_given<'a>(given: &[Given<'a>], name: Name) -> Option<Given<'a>>
    ensures { result ≡ given_of name given.now }
{
    for option in given {
        if option.name == name {
            return Some(*option);
        }
    }
    None
}

/// The options that the words give, each at most once.
pub(crate) fn given_in<'a>(
    alloc: Global,
    words: &'a [String],
) -> Result<Vec<Given<'a>>, OptionError<'a>>
    ensures { IfOk result (λ given. IsGivenBy given.items (map string_bytes words.now)) }
{
    let mut given = Vec::new(alloc);
    let mut rest = words;
    while let Some((word, others)) = rest.split_first() {
        let name = known(alloc, word.as_str())?;
        if find_given(given.as_slice(), name).is_some() {
            return Err(OptionError::Twice(name));
        }
        let ReadOption {
            option,
            rest: after,
        } = option_before(name, others)?;
        given.push(option)?;
        rest = after;
    }
    Ok(given)
}

/// The value of an option as it is spelled: the one that is given, or the one that it has without.
pub fn spelled<'a>(given: &[Given<'a>], name: Name) -> Option<&'a str>
    ensures { option_map (λ text. text.now) result ≡ value_of name given.now }
{
    match find_given(given, name) {
        Some(option) => option.value,
        None => match name.row().without {
            Without::Value(value) => Some(value),
            Without::Nothing | Without::Meaning(_) => None,
        },
    }
}
