//! Events with much work in them, which an engine may spread over workers.

ghost use Rattle.std.specs.Prelude.{◌≤◌};

use crate::messages::{CONTENT, child_path, create, parent_path, set_data, write_read};
use crate::supply::{CONNECTION, SESSION, Sender, Step, Supply};
use anyhow::{Result, ensure};
use client_records::ReadKind;
use std::alloc::Global;

/// The work of a load.
#[derive(Drop)]
pub enum Kind {
    /// Creates of nodes below each parent in turn.
    Creates,
    /// setDatas of each parent in turn.
    Sets,
    /// getDatas of each parent in turn.
    Reads,
    /// getChildren of each parent in turn.
    Lists,
}

/// The kind that a word names.
pub fn kind_of(word: &str) -> Option<Kind> {
    if word == "creates" {
        return Some(Kind::Creates);
    }
    if word == "sets" {
        return Some(Kind::Sets);
    }
    if word == "gets" {
        return Some(Kind::Reads);
    }
    if word == "names" {
        return Some(Kind::Lists);
    }
    None
}

/// The sizes of the load.
#[derive(Drop)]
pub struct Spread {
    pub kind: Kind,
    /// The number of nodes below the root.
    pub parents: u32,
    /// The number of nodes below each of these.
    pub children: u32,
    /// The length of the data of a node that is created, set or read, in bytes.
    pub content: u32,
    /// The number of transactions or reads of an event.
    pub count: u32,
    /// The number of events.
    pub times: u32,
}

impl Supply {
    // The leader sends the transactions of an event, after this many of such events.
    fn send_txns(&mut self, alloc: Global, sizes: &Spread, content: &[u8], turn: u32) -> Result<()>
        requires { 1 ≤ sizes.now.parents }
    {
        let start = self.bytes.len();
        for number in 0..sizes.count {
            let parent = number % sizes.parents;
            let body = match sizes.kind {
                Kind::Creates => {
                    let child = turn.wrapping_mul(sizes.count).wrapping_add(number);
                    let path = child_path(alloc, parent, child)?;
                    create(alloc, path, content)?
                }
                _ => set_data(alloc, parent_path(alloc, parent)?, content)?,
            };
            self.write_txn(alloc, SESSION, 1, body)?;
        }
        self.send(Sender::Leader, start)
    }

    // The leader sends the transactions of all events.
    fn send_all_txns(&mut self, alloc: Global, sizes: &Spread, content: &[u8]) -> Result<()>
        requires { 1 ≤ sizes.now.parents }
    {
        for turn in 0..sizes.times {
            self.send_txns(alloc, sizes, content, turn)?;
        }
        Ok(())
    }

    // Writes the frames that read the parents in turn.
    fn write_gets(&mut self, alloc: Global, request: ReadKind, sizes: &Spread) -> Result<()>
        requires { 1 ≤ sizes.now.parents }
    {
        for number in 0..sizes.count {
            let path = parent_path(alloc, number % sizes.parents)?;
            write_read(alloc, request, &path, false, &mut self.bytes)?;
        }
        Ok(())
    }

    // A client sends the reads of all events.
    fn send_gets(&mut self, alloc: Global, request: ReadKind, sizes: &Spread) -> Result<()>
        requires { 1 ≤ sizes.now.parents }
    {
        let start = self.bytes.len();
        self.write_gets(alloc, request, sizes)?;
        let frames = self.since(start);
        for _ in 0..sizes.times {
            self.add(Step::Bytes(Sender::Client(CONNECTION), frames))?;
        }
        Ok(())
    }

    /// Creates the nodes; then the events come.
    pub fn spread(&mut self, alloc: Global, sizes: &Spread) -> Result<()> {
        ensure!(sizes.parents > 0, "there is no node");
        let content = Vec::from_elem(alloc, b'x', sizes.content as usize)?;
        self.make_parents(alloc, sizes.parents, content.as_slice())?;
        self.make_children(alloc, sizes.parents, sizes.children, CONTENT)?;
        self.measure_from_here(alloc);
        match sizes.kind {
            Kind::Creates | Kind::Sets => self.send_all_txns(alloc, sizes, content.as_slice()),
            Kind::Reads => self.send_gets(alloc, ReadKind::GetData, sizes),
            Kind::Lists => self.send_gets(alloc, ReadKind::GetChildren, sizes),
        }
    }
}
