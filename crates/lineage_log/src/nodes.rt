// The nodes of a tree, by their ids.
ghost use Rattle.std.specs.Prelude.{◌≡◌, ◌+◌, ◌-◌, ◌<◌, ◌^◌, Contains, OnErr, OnOk, Some, false, nat_eq};
ghost use Rattle.lineage_log.specs.Prelude.{lookup, set_value};
ghost use Rattle.lineage_log.specs.Nodes.{NodeValue, AreNodes, IsSettled, id_order, living_ids_of, tree_of};
ghost use Rattle.lineage_log.specs.Ancestry.{CanCome, tree_with_death, tree_with_newcomer};

use crate::ancestor::Ancestor;
use crate::node::Node;
use avida_port::Memory;
use std::collections::HashMap;
use std::collections::hash_map::Entry;

pub(crate) type Nodes = HashMap<u64, Node>;

/// A newcomer lives, and its parent has one child more. If memory runs out, nothing changes.
pub(crate) fn enter(nodes: &mut Nodes, newcomer: Ancestor) -> Result<(), Memory>
    requires nodes { AreNodes (id_order nodes.old.entries) }
    requires can_come { CanCome (tree_of (id_order nodes.old.entries)) newcomer.id newcomer.parent }
    ensures ok { OnOk result (tree_of (id_order nodes.new.entries)
        ≡ tree_with_newcomer (tree_of (id_order nodes.old.entries)) newcomer) }
    ensures err { OnErr result (id_order nodes.new.entries ≡ id_order nodes.old.entries) }
    ensures nodes { AreNodes (id_order nodes.new.entries) }
{
    let _count = nodes.len();
    let id = newcomer.id;
    let parent = newcomer.came.parent;
    nodes.insert(id, Node::new(newcomer))?;
    if let Some(parent) = parent {
        gain_child(nodes, parent);
    }
    Ok(())
}

/// An organism dies, and no node stays in vain. It takes no memory.
pub(crate) fn bury(nodes: &mut Nodes, id: u64)
    requires nodes { AreNodes (id_order nodes.old.entries) }
    requires lives { Contains (living_ids_of (id_order nodes.old.entries)) id }
    ensures tree { tree_of (id_order nodes.new.entries)
        ≡ tree_with_death (tree_of (id_order nodes.old.entries)) id }
    ensures nodes { AreNodes (id_order nodes.new.entries) }
{
    let mut next = lay_down(nodes, id);
    while let Some(above) = next {
        next = lose_child(nodes, above);
    }
}

/// The organism of a node no longer lives. If the node is there in vain then, it goes, and its
/// parent is given.
fn lay_down(nodes: &mut Nodes, id: u64) -> Option<u64>
    ensures { (node : NodeValue) → lookup (nat_eq id) nodes.old.entries ≡ Some node
        → IsSettled nodes.old.entries nodes.new.entries id (record node { lives = false }) result }
{
    let Ok(Entry::Occupied(mut place)) = nodes.entry(id) else {
        return None;
    };
    let node = place.get_mut();
    node.end_life();
    if node.is_needed() {
        return None;
    }
    place.remove().parent()
}

/// A node has one child more.
fn gain_child(nodes: &mut Nodes, id: u64)
    requires { (node : NodeValue) → lookup (nat_eq id) nodes.old.entries ≡ Some node
        → node.children < 2 ^ 63 }
    ensures { (node : NodeValue) → lookup (nat_eq id) nodes.old.entries ≡ Some node
        → nodes.new.entries ≡ set_value (nat_eq id) nodes.old.entries
        (record node { children = node.children + 1 }) }
{
    let Some(node) = nodes.get_mut(&id) else {
        return;
    };
    node.gain_child();
}

/// A node has one child fewer. If it is there in vain then, it goes, and its parent is given.
fn lose_child(nodes: &mut Nodes, id: u64) -> Option<u64>
    requires { (node : NodeValue) → lookup (nat_eq id) nodes.old.entries ≡ Some node
        → 0 < node.children }
    ensures { (node : NodeValue) → lookup (nat_eq id) nodes.old.entries ≡ Some node
        → IsSettled nodes.old.entries nodes.new.entries id
        (record node { children = node.children - 1 }) result }
{
    let Ok(Entry::Occupied(mut place)) = nodes.entry(id) else {
        return None;
    };
    let node = place.get_mut();
    node.lose_child();
    if node.is_needed() {
        return None;
    }
    place.remove().parent()
}
