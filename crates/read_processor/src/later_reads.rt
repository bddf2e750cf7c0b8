//! The reads that later clients alone ask for.

ghost use Rattle.std.specs.Prelude.{◌≡◌, List, ℕ, [], IfOk, map, nat_eq};
ghost use Rattle.std.specs.List.{filter, starts_with};
ghost use Rattle.std.specs.Option.{option_copied, unwrap_or};
ghost use Rattle.ephemerals.specs.Orders.{sorted_names};
ghost use Rattle.node_map.specs.Stats.{java_int};
ghost use Rattle.client_records.specs.Fields.{names_format};
ghost use Rattle.read_processor.specs.Limits.{fitting_body};
ghost use Rattle.permissions.specs.Digests.{client_info_of};
ghost use Rattle.read_processor.specs.LaterReads.{look_at_ephemerals, is_below, nodes_below, look_below_node, look_below, look_at_ids, look_of_sasl};

use crate::body::Body;
use crate::counts::{infos_len, texts_len};
use crate::reads::is_readable_path;
use crate::shown::Look;
use client_records::codes::OK;
use client_records::{
    ClientInfo, GetAllChildrenNumberResponse, GetChildrenResponse, Name, SaslResponse,
    WhoAmIResponse,
};
use data_tree::{Node, Tree};
use ephemerals::TextSet;
use jute::Id;
use jute::codes::{BAD_ARGUMENTS, NO_AUTH, NO_NODE};
use permissions::{client_info_of, may_read};
use settings::Dialect;
use std::alloc::Global;
use values::{Listed, NoMemory, Str};

// ---- getEphemerals

// The bytes that the paths begin with; null is at the front of all.
fn front_of<'a>(prefix: &Option<Str<'a>>) -> &'a [u8]
    ensures { result.now ≡ unwrap_or prefix.now [] }
{
    match prefix {
        None => &[],
        Some(prefix) => prefix.as_str().as_bytes(),
    }
}

// The texts that begin with these bytes, in ascending order of their bytes.
fn texts_with<'a>(
    alloc: Global,
    texts: &'a TextSet,
    front: &[u8],
) -> Result<Vec<Name<'a>>, NoMemory>
    ensures { IfOk result (λ found. found.items
        ≡ filter (λ path. starts_with nat_eq path front.now) (sorted_names texts.now)) }
{
    let mut found = Vec::new(alloc);
    for text in texts.iter() {
        if text.as_str().as_bytes().starts_with(front) {
            found.push(Name::new(text.as_str()))?;
        }
    }
    Ok(found)
}

// The names as the body of a reply.
fn body_of_names(alloc: Global, names: Vec<Name<'_>>) -> Result<Option<Body>, NoMemory>
    ensures { IfOk result (λ body. body ≡ fitting_body (names_format.written names.entry.items)) }
{
    let Some(_) = texts_len(names.as_slice()) else {
        return Ok(None);
    };
    Body::of(
        alloc,
        &GetChildrenResponse {
            children: Listed::from_vec(names),
        },
    )
}

/// The answer to a getEphemerals: the ephemeral nodes of the session whose paths begin with the prefix. Fails only if
/// an allocation is refused.
pub fn look_at_ephemerals(
    alloc: Global,
    tree: &Tree,
    session: i64,
    prefix: &Option<Str<'_>>,
) -> Result<Look, NoMemory>
    ensures { IfOk result (λ shown. shown ≡ look_at_ephemerals tree.now session prefix.now) }
{
    let paths = tree.ephemerals().of(alloc, session)?;
    let names = texts_with(alloc, &paths, front_of(prefix))?;
    let body = body_of_names(alloc, names)?;
    Ok(Look { error: OK, body })
}

// ---- getAllChildrenNumber

// Whether the other path is below the path.
fn is_below(path: &[u8], other: &[u8]) -> bool
    ensures { result ≡ is_below path.now other.now }
{
    if path == b"/".as_slice() {
        return other != b"/".as_slice();
    }
    other.starts_with(path) && other[path.len()..].starts_with(b"/")
}

// How many nodes are below the path, at any depth, as a Java int, which wraps.
fn nodes_below(tree: &Tree, path: &[u8]) -> i32
    ensures { result ≡ java_int (nodes_below tree.now path.now) }
{
    let mut count: u32 = 0;
    for (other, _) in tree.nodes() {
        if is_below(path, other.as_str().as_bytes()) {
            count = count.wrapping_add(1);
        }
    }
    count.cast_signed()
}

#[tactic(auto, unfolding(client_records::specs::Responses::all_children_number_response, jute::specs::Format::number_bytes))]
fn look_below_node(
    alloc: Global,
    tree: &Tree,
    ids: &[Id],
    path: &[u8],
    node: Option<&Node>,
) -> Result<Look, NoMemory>
    ensures { IfOk result
        (λ shown. shown ≡ look_below_node tree.now ids.now path.now (option_copied node.entry)) }
{
    let Some(node) = node else {
        return Look::without_body(alloc, NO_NODE);
    };
    if !may_read(Dialect::Zk38, ids, &node.acl) {
        return Look::without_body(alloc, NO_AUTH);
    }
    let body = Body::of(
        alloc,
        &GetAllChildrenNumberResponse {
            total_number: nodes_below(tree, path),
        },
    )?;
    Ok(Look { error: OK, body })
}

/// The answer to a getAllChildrenNumber by a client with these ids: how many nodes are below the path, at any depth.
/// Fails only if an allocation is refused.
pub fn look_below(
    alloc: Global,
    tree: &Tree,
    ids: &[Id],
    path: &Option<Str<'_>>,
) -> Result<Look, NoMemory>
    ensures { IfOk result (λ shown. shown ≡ look_below tree.now ids.now path.now) }
{
    let Some(path) = path else {
        return Look::without_body(alloc, BAD_ARGUMENTS);
    };
    let path = path.as_str();
    if !is_readable_path(path.as_bytes()) {
        return Look::without_body(alloc, BAD_ARGUMENTS);
    }
    look_below_node(alloc, tree, ids, path.as_bytes(), tree.node(path))
}

// ---- whoAmI and sasl

// The ids as their client is shown them.
fn infos_of(alloc: Global, ids: &[Id]) -> Result<Vec<ClientInfo<'_>>, NoMemory>
    ensures { IfOk result (λ infos. infos.items ≡ map client_info_of ids.now) }
{
    let mut infos = Vec::with_capacity(alloc, ids.len())?;
    for id in ids {
        infos.push(client_info_of(id))?;
    }
    Ok(infos)
}

/// The answer to a whoAmI: the ids of the connection, in the order in which they were shown. Fails only if an
/// allocation is refused.
pub fn look_at_ids(alloc: Global, ids: &[Id]) -> Result<Look, NoMemory>
    ensures { IfOk result (λ shown. shown ≡ look_at_ids ids.now) }
{
    let infos = infos_of(alloc, ids)?;
    let Some(_) = infos_len(infos.as_slice()) else {
        return Ok(Look {
            error: OK,
            body: None,
        });
    };
    let body = Body::of(
        alloc,
        &WhoAmIResponse {
            client_info: Listed::from_vec(infos),
        },
    )?;
    Ok(Look { error: OK, body })
}

/// The answer to a sasl: a null token. Fails only if an allocation is refused.
#[tactic(auto, unfolding(client_records::specs::Responses::sasl_response, jute::specs::Format::number_bytes))]
pub fn look_of_sasl(alloc: Global) -> Result<Look, NoMemory>
    ensures { IfOk result (λ shown. shown ≡ look_of_sasl) }
{
    let body = Body::of(alloc, &SaslResponse { token: None })?;
    Ok(Look { error: OK, body })
}
