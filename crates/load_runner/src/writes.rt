//! Writes of clients, which go to the leader and come back as its transactions.

ghost use Rattle.std.specs.Prelude.{◌≤◌, length, IfOk};

use crate::choice::Choice;
use crate::messages::{
    CONTENT, PATH_LIMIT, child_path, create, set_data, write_create, write_set_data,
};
use crate::spread::Kind;
use crate::supply::{Sender, Supply, opened, session_of};
use anyhow::{Context, Result, ensure};
use paths_and_acls::Path;
use std::alloc::Global;

/// The sizes of the load.
#[derive(Drop)]
pub struct Writes {
    /// Creates of nodes beside the children of a parent, or setDatas of children.
    pub kind: Kind,
    /// The number of nodes created below the root.
    pub parents: u32,
    /// The number of nodes created below each of these.
    pub children: u32,
    /// The number of writes.
    pub writes: u32,
    /// The number of connections opened, which write in turn.
    pub connections: u32,
    /// The number of writes after which the leader's transactions of them come.
    pub together: u32,
}

// The connection and the xid of the write with this number.
fn request_of(sizes: &Writes, number: u32) -> Result<(u64, i32)>
    requires { 1 ≤ sizes.now.connections }
{
    let before = i32::try_from(number / sizes.connections).context("no xid is left")?;
    let xid = before.checked_add(1).context("no xid is left")?;
    Ok((opened(number % sizes.connections), xid))
}

// The path of the write with this number.
fn path_of(alloc: Global, sizes: &Writes, number: u32, choice: &mut Choice) -> Result<Path>
    requires parents { 1 ≤ sizes.now.parents }
    requires children { 1 ≤ sizes.now.children }
    ensures { IfOk result (λ p. length p ≤ PATH_LIMIT) }
{
    let parent = choice.below(sizes.parents);
    let child = match sizes.kind {
        Kind::Creates => sizes.children.saturating_add(number),
        _ => choice.below(sizes.children),
    };
    child_path(alloc, parent, child)
}

impl Supply {
    // Clients send the writes from one number to another.
    fn request_writes(
        &mut self,
        alloc: Global,
        sizes: &Writes,
        first: u32,
        end: u32,
        choice: &mut Choice,
    ) -> Result<()>
        requires parents { 1 ≤ sizes.now.parents }
        requires children { 1 ≤ sizes.now.children }
        requires connections { 1 ≤ sizes.now.connections }
    {
        for number in first..end {
            let (connection, xid) = request_of(sizes, number)?;
            let path = path_of(alloc, sizes, number, choice)?;
            let start = self.bytes.len();
            match sizes.kind {
                Kind::Creates => write_create(alloc, xid, &path, CONTENT, &mut self.bytes)?,
                _ => write_set_data(alloc, xid, &path, CONTENT, &mut self.bytes)?,
            }
            self.send(Sender::Client(connection), start)?;
        }
        Ok(())
    }

    // The leader sends the transactions of these writes, one after the other.
    fn answer_writes(
        &mut self,
        alloc: Global,
        sizes: &Writes,
        first: u32,
        end: u32,
        choice: &mut Choice,
    ) -> Result<()>
        requires parents { 1 ≤ sizes.now.parents }
        requires children { 1 ≤ sizes.now.children }
        requires connections { 1 ≤ sizes.now.connections }
    {
        for number in first..end {
            let (connection, xid) = request_of(sizes, number)?;
            let path = path_of(alloc, sizes, number, choice)?;
            let body = match sizes.kind {
                Kind::Creates => create(alloc, path, CONTENT)?,
                _ => set_data(alloc, path, CONTENT)?,
            };
            let start = self.bytes.len();
            self.write_txn(alloc, session_of(connection)?, xid, body)?;
            self.send(Sender::Leader, start)?;
        }
        Ok(())
    }

    // All writes, so many at a time: first the clients' requests, and then the leader's transactions.
    fn write_all(&mut self, alloc: Global, sizes: &Writes) -> Result<()>
        requires parents { 1 ≤ sizes.now.parents }
        requires children { 1 ≤ sizes.now.children }
        requires connections { 1 ≤ sizes.now.connections }
        requires together { 1 ≤ sizes.now.together }
    {
        let mut choice = Choice::new();
        for first in (0..sizes.writes).step_by(sizes.together as usize) {
            let end = sizes.writes.min(first.saturating_add(sizes.together));
            let mut again = choice;
            self.request_writes(alloc, sizes, first, end, &mut choice)?;
            self.answer_writes(alloc, sizes, first, end, &mut again)?;
        }
        Ok(())
    }

    /// Creates the nodes and opens the connections; then these write in turn.
    pub fn write(&mut self, alloc: Global, sizes: &Writes) -> Result<()> {
        ensure!(
            matches!(sizes.kind, Kind::Creates | Kind::Sets),
            "a read isn't written"
        );
        ensure!(
            sizes.parents > 0 && sizes.children > 0,
            "there is nothing to be written"
        );
        ensure!(
            sizes.connections > 0 && sizes.together > 0,
            "there is nobody who writes"
        );
        self.make_tree(alloc, sizes.parents, sizes.children, CONTENT)?;
        self.open_all(alloc, sizes.connections)?;
        self.measure_from_here(alloc);
        self.write_all(alloc, sizes)
    }
}
