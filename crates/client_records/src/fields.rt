//! Fields of the records: texts and buffers that may be null, and lists.

ghost use Rattle.std.specs.Prelude.{◌≡◌, ℕ, List, length, nat_eq, Ok, Some};
ghost use Rattle.std.specs.Cmp.{partial_equiv_from_equiv};
ghost use Rattle.std.specs.Cmp.Lexicographic.{pointwise, nat_list_eq_equiv};
ghost use Rattle.ephemerals.specs.Orders.{sorted_names};
ghost use Rattle.jute.specs.Format.{buffer, text_or_empty, vector_of, vector_at, judged_at, or_empty};
ghost use Rattle.jute.specs.Reads.{ReadsOwned};
ghost use Rattle.values.specs.Gains.{Puts};
ghost use Rattle.client_records.specs.Fields.{names_format};

use ephemerals::TextSet;
use jute::{
    ReadRecord, Reader, WriteRecord, put_bytes, put_int, put_items, put_string, read_name,
    read_vector,
};
use std::alloc::Global;
use std::marker::Model;
use values::{Bytes, Listed, NoMemory, ReadError, Str};

// The length in bytes of a ustring with its length prefix, or of null.
#[tactic(auto, unfolding(jute::specs::Format::number_bytes))]
pub(crate) fn text_len(text: &Option<Str<'_>>) -> usize
    requires { buffer.Writable text.now }
    ensures { result ≡ length (buffer.written text.now) }
{
    match text {
        None => 4,
        Some(text) => 4 + text.as_str().len(),
    }
}

pub fn put_text(out: &mut Vec<u8>, text: &Option<Str<'_>>) -> Result<(), NoMemory>
    requires { buffer.Writable text.now }
    ensures { Puts result out.old.items (buffer.written text.now) out.new.items }
{
    match text {
        None => put_int(out, -1),
        Some(text) => put_string(out, text.as_str()),
    }
}

// The length in bytes of a buffer with its length prefix, or of null.
#[tactic(auto, unfolding(jute::specs::Format::number_bytes))]
pub(crate) fn buffer_len(bytes: &Option<Bytes<'_>>) -> usize
    requires { buffer.Writable bytes.now }
    ensures { result ≡ length (buffer.written bytes.now) }
{
    match bytes {
        None => 4,
        Some(bytes) => 4 + bytes.as_slice().len(),
    }
}

pub(crate) fn put_buffer(out: &mut Vec<u8>, bytes: &Option<Bytes<'_>>) -> Result<(), NoMemory>
    requires { buffer.Writable bytes.now }
    ensures { Puts result out.old.items (buffer.written bytes.now) out.new.items }
{
    match bytes {
        None => put_int(out, -1),
        Some(bytes) => put_bytes(out, bytes.as_slice()),
    }
}

/// A borrowed text in a list, such as a name or a path. Null is read as empty.
#[derive(Drop)]
pub struct Name<'a> {
    text: &'a str,
}

impl<'a> Model for Name<'a> {
    ghost Value = { List ℕ };

    ghost view = { λ n. n.text.now };
}

impl<'a> Name<'a> {
    pub fn new(text: &'a str) -> Name<'a>
        ensures { result ≡ text.now }
    {
        Name { text }
    }

    pub fn as_str(&self) -> &'a str
        ensures { result.now ≡ self.now }
    {
        self.text
    }
}

impl<'a> PartialEq for Name<'a> {
    ghost eq = { λ a b. pointwise nat_eq a b };

    ghost laws = { partial_equiv_from_equiv nat_list_eq_equiv };

    fn eq(&self, other: &Name<'a>) -> bool {
        self.as_str() == other.as_str()
    }
}

impl<'a> ReadRecord<'a> for Name<'a> {
    ghost read_of = { text_or_empty.read };

    fn read(_alloc: Global, reader: &mut Reader<'a>) -> Result<Name<'a>, ReadError> {
        let text = read_name(reader)?.as_str();
        Ok(Name { text })
    }
}

impl<'a> WriteRecord for Name<'a> {
    ghost format = { text_or_empty };

    #[tactic(auto, unfolding(jute::specs::Format::number_bytes))]
    fn written_len(&self) -> usize {
        4 + self.text.len()
    }

    fn write(&self, out: &mut Vec<u8>) -> Result<(), NoMemory> {
        put_string(out, self.text)
    }
}

/// Reads a vector of records; null is read as empty.
#[tactic(auto, unfolding(jute::specs::Format::judged_at))]
pub fn read_list<'a, T: ReadRecord<'a>>(
    alloc: Global,
    reader: &mut Reader<'a>,
) -> Result<Listed<T>, ReadError>
    ensures { ReadsOwned (judged_at (λ v. Ok (or_empty v)) (vector_at T.read_of)) (λ v. v)
        result reader.old reader.new }
{
    match read_vector(alloc, reader)? {
        None => Ok(Listed::from_vec(Vec::new(alloc))),
        Some(items) => Ok(items),
    }
}

/// Appends a list as a vector: an int count, and the records one after the other.
pub fn put_list<T: WriteRecord>(out: &mut Vec<u8>, items: &[T]) -> Result<(), NoMemory>
    requires { (vector_of T.format).Writable (Some items.now) }
    ensures { Puts result out.old.items ((vector_of T.format).written (Some items.now)) out.new.items }
{
    put_int(out, items.len() as i32)?;
    put_items(out, items)
}

/// Appends the texts of a set in its order, as a vector of ustrings: an int count, and the texts one after the other. A
/// refused allocation leaves a prefix of the bytes appended.
pub fn put_names(out: &mut Vec<u8>, texts: &TextSet) -> Result<(), NoMemory>
    requires { names_format.Writable (sorted_names texts.now) }
    ensures { Puts result out.old.items
        (names_format.written (sorted_names texts.now)) out.new.items }
{
    put_int(out, texts.len() as i32)?;
    for text in texts.iter() {
        put_string(out, text.as_str())?;
    }
    Ok(())
}
