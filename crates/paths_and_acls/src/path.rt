//! Checked paths.

ghost use Rattle.std.specs.Prelude.{◌≡◌, List, ℕ, string_bytes, IsTrue, IfOk, Some, None, if◌then◌else◌};
ghost use Rattle.jute.specs.Reads.{ReadsOwnedWhole};
ghost use Rattle.paths_and_acls.specs.Fields.{child_path};
ghost use Rattle.paths_and_acls.specs.Paths.{are_names, is_path, is_child_path, checked_path, checked_child_path, parent_of, name_of, child_of};

use jute::{WriteRecord, put_string};
use std::alloc::Global;
use std::marker::Model;
use values::{Fault, NoMemory, ReadError, Text};

/// A path of a node: "/", or non-empty names without NUL, each after a slash (ZooKeeper Programmer's Guide).
#[derive(Clone, Debug, Drop)]
pub struct Path {
    text: Text,
}

impl Model for Path {
    ghost Value = { List ℕ };

    ghost view = { λ p. p.text };

    ghost invariant = { λ p. IsTrue (is_path p.text) };
}

// Whether a text is names between slashes.
fn are_names(text: &[u8]) -> bool
    ensures { result ≡ are_names text.now }
{
    let mut after_slash = true;
    for byte in text {
        if *byte == 0 || (after_slash && *byte == b'/') {
            return false;
        }
        after_slash = *byte == b'/';
    }
    !after_slash
}

// Whether a text is a path other than "/".
fn is_child_path(text: &[u8]) -> bool
    ensures { result ≡ is_child_path text.now }
{
    match text {
        [b'/', names @ ..] => are_names(names),
        _ => false,
    }
}

/// Whether a text is a path.
pub fn is_path(text: &[u8]) -> bool
    ensures { result ≡ is_path text.now }
{
    matches!(text, [b'/']) || is_child_path(text)
}

/// The text before the last slash; the parent of "/a" and of "/" is "/".
pub fn parent_of(path: &str) -> &str
    ensures { result.now ≡ parent_of path.now }
{
    match path.rsplit_once('/') {
        None => "/",
        Some((front, _)) => {
            if front.is_empty() {
                return "/";
            }
            front
        }
    }
}

/// The text after the last slash; the name of "/" is empty.
pub fn name_of(path: &str) -> &str
    ensures { result.now ≡ name_of path.now }
{
    match path.rsplit_once('/') {
        None => path,
        Some((_, name)) => name,
    }
}

/// The path of the child with this name; the child "a" of "/" is "/a". Fails only if an allocation is refused.
pub fn child_of(alloc: Global, path: &str, name: &str) -> Result<String, NoMemory>
    ensures { IfOk result (λ text. string_bytes text ≡ child_of path.now name.now) }
{
    let mut text = String::from_str(alloc, path)?;
    if path != "/" {
        text.push_str("/")?;
    }
    text.push_str(name)?;
    Ok(text)
}

impl Path {
    /// Checks that the text is a path. The fault is `BadPath` if it isn't. Fails with `NoMemory` if an allocation is
    /// refused.
    pub fn new(alloc: Global, text: &str) -> Result<Path, ReadError>
        ensures { ReadsOwnedWhole (checked_path text.now) result }
    {
        if !is_path(text.as_bytes()) {
            return Err(ReadError::Fault(Fault::BadPath));
        }
        Ok(Path {
            text: Text::new(alloc, text)?,
        })
    }

    /// Checks that the text is a path other than "/", whose node has a parent. The fault is `BadPath` if it isn't. Fails
    /// with `NoMemory` if an allocation is refused.
    pub fn new_child(alloc: Global, text: &str) -> Result<Path, ReadError>
        ensures { ReadsOwnedWhole (checked_child_path text.now) result }
    {
        if !is_child_path(text.as_bytes()) {
            return Err(ReadError::Fault(Fault::BadPath));
        }
        Ok(Path {
            text: Text::new(alloc, text)?,
        })
    }

    /// The path, if the text is one other than "/". Fails only if an allocation is refused.
    pub fn if_child(alloc: Global, text: &str) -> Result<Option<Path>, NoMemory>
        ensures { IfOk result (λ path. path ≡ (if is_child_path text.now then Some text.now else None)) }
    {
        if is_child_path(text.as_bytes()) {
            return Ok(Some(Path {
                text: Text::new(alloc, text)?,
            }));
        }
        Ok(None)
    }

    /// The whole path.
    pub fn as_str(&self) -> &str
        ensures text { result.now ≡ self.now }
        ensures path { IsTrue (is_path self.now) }
    {
        self.text.as_str()
    }

    /// The text before the last slash; the parent of "/a" and of "/" is "/".
    pub fn parent(&self) -> &str
        ensures { result.now ≡ parent_of self.now }
    {
        parent_of(self.as_str())
    }

    /// The text after the last slash; the name of "/" is empty.
    pub fn name(&self) -> &str
        ensures { result.now ≡ name_of self.now }
    {
        name_of(self.as_str())
    }
}

// As the path of a node that has a parent.
impl WriteRecord for Path {
    ghost format = { child_path };

    #[tactic(auto, unfolding(jute::specs::Format::number_bytes))]
    fn written_len(&self) -> usize {
        4 + self.as_str().len()
    }

    fn write(&self, out: &mut Vec<u8>) -> Result<(), NoMemory> {
        put_string(out, self.as_str())
    }
}
