//! A node of the tree.

ghost use Rattle.std.specs.Prelude.{◌≡◌, OnOk, OnErr, IfOk, not, int_lt, if◌then◌else◌};
ghost use Rattle.std.specs.FinSet as set;
ghost use Rattle.node_map.specs.Children.{with_added_child, stat_after_create, stat_after_delete};
ghost use Rattle.node_map.specs.Updates.{new_node, owner_of, ttl_mark, mark_of, next_cversion, counts_by, pzxid_by, with_data, with_acl, with_missing_acl, preset_node};
ghost use Rattle.node_map.specs.Stats.{stat_of, shown_stat, java_int, length_or_zero, shown_cversion};

use ephemerals::TextSet;
use jute::{Stat, StatPersisted};
use paths_and_acls::AclList;
use settings::Dialect;
use std::alloc::{AllocError, Global};
use txn_codec::{Create, Owner, SetAcl, SetData, TxnHeader};
use values::{Blob, NoMemory};

/// A node: its data, which may be null, its access control list, its stat, and the names of its children.
#[derive(Drop)]
pub struct Node {
    pub bytes: Option<Blob>,
    pub acl: AclList,
    pub stat: StatPersisted,
    /// What images have as the owner of a container, or of a node with a time to live, which the leader deletes: no
    /// session, and never shown; 0 for other nodes.
    pub mark: i64,
    pub children: TextSet,
}

impl Clone for Node {
    ghost is_clone = { λ x y. y ≡ x };

    fn clone(&self) -> Result<Node, AllocError> {
        Ok(Node {
            bytes: self.bytes.clone()?,
            acl: self.acl.clone()?,
            stat: self.stat,
            mark: self.mark,
            children: self.children.clone()?,
        })
    }
}

// The stored cversion of a parent after a create.
fn next_version(stored: i32, wanted: i32) -> i32
    ensures { result ≡ next_cversion stored wanted }
{
    if wanted == -1 {
        stored.wrapping_add(1)
    } else {
        wanted
    }
}

fn stat_after_create(before: StatPersisted, header: &TxnHeader, create: &Create) -> StatPersisted
    ensures { result ≡ stat_after_create header.now create.now before }
{
    let mut after = before;
    after.cversion = next_version(before.cversion, create.parent_cversion);
    after.pzxid = header.zxid;
    after
}

// The stat with the greater cversion, or the first one if the two are equal.
fn higher_stat(before: StatPersisted, after: StatPersisted) -> StatPersisted
    ensures { result ≡ (if int_lt before.cversion after.cversion then after else before) }
{
    if before.cversion < after.cversion {
        return after;
    }
    before
}

// The stat of a parent before or after a create of a new child, whichever counts.
fn stat_that_counts(rules: Dialect, before: StatPersisted, after: StatPersisted) -> StatPersisted
    ensures { result ≡ (if counts_by rules before.cversion after.cversion then after else before) }
{
    match rules {
        Dialect::Zk34 => after,
        Dialect::Zk38 => higher_stat(before, after),
    }
}

// The pzxid of a parent after a delete of a child.
fn pzxid_after_delete(rules: Dialect, stored: i64, zxid: i64) -> i64
    ensures { result ≡ pzxid_by rules stored zxid }
{
    match rules {
        Dialect::Zk34 => zxid,
        Dialect::Zk38 => {
            if stored < zxid {
                return zxid;
            }
            stored
        }
    }
}

/// A parent's stat after a delete of a child.
pub(crate) fn stat_after_delete(before: StatPersisted, header: &TxnHeader) -> StatPersisted
    ensures { result ≡ stat_after_delete header.now before }
{
    let mut numbers = before;
    numbers.pzxid = pzxid_after_delete(header.rules, before.pzxid, header.zxid);
    numbers
}

/// The session that owns a created node, or 0 if the node isn't ephemeral.
pub(crate) fn owner(header: &TxnHeader, owner: Owner) -> i64
    ensures { result ≡ owner_of header.now owner }
{
    match owner {
        Owner::Client => header.client_id,
        Owner::Nobody | Owner::Container | Owner::Ttl(_) => 0,
    }
}

// The number of a time to live.
fn ttl_mark(milliseconds: i64) -> i64
    ensures { result ≡ ttl_mark milliseconds }
{
    (milliseconds.cast_unsigned() % (1 << 40)).cast_signed() - (1 << 56)
}

// The number of a created node that the leader deletes, or 0.
fn mark(owner: Owner) -> i64
    ensures { result ≡ mark_of owner }
{
    match owner {
        Owner::Container => i64::MIN,
        Owner::Ttl(milliseconds) => ttl_mark(milliseconds),
        Owner::Nobody | Owner::Client => 0,
    }
}

// The stat of a new node.
fn first_stat(header: &TxnHeader, create: &Create) -> StatPersisted
    ensures { result ≡ (new_node header.now create.now).stat }
{
    StatPersisted {
        czxid: header.zxid,
        mzxid: header.zxid,
        ctime: header.time,
        mtime: header.time,
        version: 0,
        cversion: 0,
        aversion: 0,
        ephemeral_owner: owner(header, create.owner),
        pzxid: header.zxid,
    }
}

// Copies data. A refused allocation changes nothing.
fn copy_bytes(bytes: &mut Option<Blob>, others: &Option<Blob>) -> Result<(), NoMemory>
    ensures ok { OnOk result (bytes.new ≡ others.now) }
    ensures err { OnErr result (bytes.new ≡ bytes.old) }
{
    if let Some(bytes) = bytes {
        if let Some(others) = others {
            return bytes.copy_from(others);
        }
    }
    *bytes = others.clone()?;
    Ok(())
}

fn stat_with_data(before: StatPersisted, header: &TxnHeader, body: &SetData) -> StatPersisted
    ensures { result ≡
        record before {
          version = body.now.version;
          mzxid = header.now.zxid;
          mtime = header.now.time;
        } }
{
    let mut after = before;
    after.version = body.version;
    after.mzxid = header.zxid;
    after.mtime = header.time;
    after
}

fn one_text(alloc: Global, text: &str) -> Result<TextSet, NoMemory>
    ensures { IfOk result (λ texts. texts ≡ set.insert set.empty text.now) }
{
    let mut texts = TextSet::new(alloc);
    texts.insert(alloc, text)?;
    Ok(texts)
}

fn preset_stat() -> StatPersisted
    ensures { result ≡ (preset_node set.empty).stat }
{
    StatPersisted {
        czxid: 0,
        mzxid: 0,
        ctime: 0,
        mtime: 0,
        version: 0,
        cversion: 0,
        aversion: 0,
        ephemeral_owner: 0,
        pzxid: 0,
    }
}

// A preset node: one that no transaction creates.
fn make_preset_node(alloc: Global, children: TextSet) -> Result<Node, NoMemory>
    ensures { IfOk result (λ node. node ≡ preset_node children) }
{
    Ok(Node {
        bytes: Some(Blob::new(alloc, &[])?),
        acl: AclList::open(),
        stat: preset_stat(),
        mark: 0,
        children,
    })
}

impl Node {
    /// A preset node without children.
    pub fn childless(alloc: Global) -> Result<Node, NoMemory>
        ensures { IfOk result (λ node. node ≡ preset_node set.empty) }
    {
        make_preset_node(alloc, TextSet::new(alloc))
    }

    /// A node that another one will replace. Allocates nothing.
    pub(crate) fn placeholder(alloc: Global) -> Node {
        Node {
            bytes: None,
            acl: AclList::open(),
            stat: preset_stat(),
            mark: 0,
            children: TextSet::new(alloc),
        }
    }

    /// A preset node with one child.
    pub fn with_child(alloc: Global, child: &str) -> Result<Node, NoMemory>
        ensures { IfOk result (λ node. node ≡ preset_node (set.insert set.empty child.now)) }
    {
        make_preset_node(alloc, one_text(alloc, child)?)
    }

    /// The node that a create makes.
    pub fn created(alloc: Global, header: &TxnHeader, create: &Create) -> Result<Node, NoMemory>
        ensures { IfOk result (λ node. node ≡ new_node header.now create.now) }
    {
        Ok(Node {
            bytes: create.bytes.clone()?,
            acl: create.acl.to_list()?,
            stat: first_stat(header, create),
            mark: mark(create.owner),
            children: TextSet::new(alloc),
        })
    }

    /// Adds a child's name, or raises the node's stat if it has the name already. Returns whether the name is new.
    pub(crate) fn add_child(
        &mut self,
        alloc: Global,
        name: &str,
        header: &TxnHeader,
        create: &Create,
    ) -> Result<bool, NoMemory>
        ensures state { OnOk result
            (self.new ≡ with_added_child header.now create.now name.now self.old) }
        ensures added { IfOk result
            (λ added. added ≡ not (set.contains self.old.children name.now)) }
        ensures err { OnErr result (self.new ≡ self.old) }
    {
        let after = stat_after_create(self.stat, header, create);
        let added = self.children.insert(alloc, name)?;
        if added {
            self.stat = stat_that_counts(header.rules, self.stat, after);
            return Ok(true);
        }
        self.stat = higher_stat(self.stat, after);
        Ok(false)
    }

    /// Replaces the data. A refused allocation changes nothing.
    pub(crate) fn set_data(&mut self, header: &TxnHeader, body: &SetData) -> Result<(), NoMemory>
        ensures ok { OnOk result (self.new ≡ with_data header.now body.now self.old) }
        ensures err { OnErr result (self.new ≡ self.old) }
    {
        copy_bytes(&mut self.bytes, &body.bytes)?;
        self.stat = stat_with_data(self.stat, header, body);
        Ok(())
    }

    /// Replaces the access control list. A refused allocation changes nothing.
    pub(crate) fn set_acl(&mut self, body: &SetAcl) -> Result<(), NoMemory>
        ensures ok { OnOk result (self.new ≡ with_acl body.now self.old) }
        ensures err { OnErr result (self.new ≡ self.old) }
    {
        let acl = body.acl.to_list()?;
        self.acl = acl;
        self.stat.aversion = body.version;
        Ok(())
    }

    /// Gives this access control list to a node that came without one.
    pub(crate) fn mend_acl(&mut self, acl: AclList)
        ensures { self.new ≡ with_missing_acl acl self.old }
    {
        if self.acl.is_empty() {
            self.acl = acl;
        }
    }

    /// The node's Stat, as clients see it.
    pub fn shown(&self) -> Stat
        ensures { result ≡ stat_of self.now }
    {
        show(
            self.stat,
            java_int(self.children.len()),
            java_int(length(&self.bytes)),
        )
    }
}

// The Stat that clients see, from the stored one, the number of children and the length of the data in bytes.
fn show(stat: StatPersisted, children: i32, bytes: i32) -> Stat
    ensures { result ≡ shown_stat stat children bytes }
{
    Stat {
        czxid: stat.czxid,
        mzxid: stat.mzxid,
        ctime: stat.ctime,
        mtime: stat.mtime,
        version: stat.version,
        cversion: shown_cversion(stat.cversion, children),
        aversion: stat.aversion,
        ephemeral_owner: stat.ephemeral_owner,
        data_length: bytes,
        num_children: children,
        pzxid: stat.pzxid,
    }
}

// A count as a Java int, which wraps.
fn java_int(count: usize) -> i32
    ensures { result ≡ java_int count }
{
    ((count % (1 << 32)) as u32).cast_signed()
}

// The length of the data in bytes; 0 for null.
fn length(bytes: &Option<Blob>) -> usize
    ensures { result ≡ length_or_zero bytes.now }
{
    match bytes {
        None => 0,
        Some(bytes) => bytes.as_slice().len(),
    }
}

// The cversion that clients see. It counts creates and deletes of children, and the stored one creates alone.
fn shown_cversion(stored: i32, children: i32) -> i32
    ensures { result ≡ shown_cversion stored children }
{
    stored.wrapping_mul(2).wrapping_sub(children)
}
