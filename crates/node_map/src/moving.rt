//! Moving nodes from one map to another, with their data, lists and names as they are.

ghost use Rattle.std.specs.Prelude.{◌≡◌, OnOk, OnErr, IfOk, not};
ghost use Rattle.std.specs.FinMap as finmap;
ghost use Rattle.std.specs.FinSet as set;
ghost use Rattle.ephemerals.specs.Orders.{Bytes};
ghost use Rattle.node_map.specs.Agreement.{has_node};
ghost use Rattle.node_map.specs.Inner.Moving.{IsRoomFor, with_replaced_node};
ghost use Rattle.node_map.specs.declared.node.Node.{Node};

use crate::node::Node;
use crate::node_map::NodeMap;
use ephemerals::TextSet;
use std::alloc::Global;
use values::NoMemory;

impl NodeMap {
    fn has(&self, path: &str) -> bool
        ensures { result ≡ has_node self.now path.now }
    {
        self.get(path).is_some()
    }

    // A map with a node at each of the paths that has a node here. Replacing that node later allocates nothing.
    fn room_at(&self, alloc: Global, paths: &TextSet) -> Result<NodeMap, NoMemory>
        ensures { IfOk result (λ room. IsRoomFor paths.now self.now room) }
    {
        let mut room = NodeMap::with_key(alloc, self.hash_key());
        for path in paths.iter() {
            if self.has(path.as_str()) {
                room.insert(alloc, path.as_str(), Node::placeholder(alloc))?;
            }
        }
        Ok(room)
    }

    // Moves the node at the path, if there is one, in place of the node at the same path of `room`.
    fn move_node(&mut self, path: &str, room: &mut NodeMap)
        ensures gone { self.new ≡ finmap.remove self.old path.now }
        ensures moved { room.new ≡ with_replaced_node path.now (finmap.get self.old path.now) room.old }
    {
        match self.remove(path) {
            None => return,
            Some(node) => room.replace(path, node),
        }
    }

    /// Takes out the nodes at these paths. It allocates before it changes anything.
    pub fn take(&mut self, alloc: Global, paths: &TextSet) -> Result<NodeMap, NoMemory>
        ensures taken { IfOk result
            (λ taken. taken ≡ finmap.retain_keys self.old (set.contains paths.now)) }
        ensures left { OnOk result
            (self.new ≡
            finmap.retain_keys self.old (λ (path : Bytes). not (set.contains paths.now path))) }
        ensures err { OnErr result (self.new ≡ self.old) }
    {
        let mut taken = self.room_at(alloc, paths)?;
        for path in paths.iter() {
            self.move_node(path.as_str(), &mut taken);
        }
        Ok(taken)
    }
}
