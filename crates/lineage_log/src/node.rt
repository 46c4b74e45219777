// A node of a tree.
ghost use Rattle.std.specs.Prelude.{◌≡◌, ◌+◌, ◌-◌, ◌<◌, ◌^◌, false, IfOk, option_map, true};
ghost use Rattle.lineage_log.specs.Prelude.{letters, record_of};
ghost use Rattle.lineage_log.specs.Nodes.{is_needed, node_link};

use crate::ancestor::{Ancestor, Provenance};
use crate::link::Link;
use avida_port::Memory;
use genome::Genome;
use mutations::Origin;
use std::alloc::Global;
use std::marker::Model;
use std::sync::Arc;

/// An organism that lives or has descendants that do.
#[derive(Drop)]
pub(crate) struct Node {
    came: Provenance,
    genome: Arc<Genome, Global>,
    /// How many of its children are in the tree.
    children: u64,
    lives: bool,
}

impl Model for Node {
    ghost use Rattle.std.specs.Prelude.{option_map};
    ghost use Rattle.genome.specs.Genome.{letters};
    ghost use Rattle.mutations.specs.BirthRecord.{record_of};
    ghost use Rattle.lineage_log.specs.Nodes.{NodeValue};

    ghost Value = { NodeValue };

    ghost view = { λ n. record {
      parent = n.came.parent;
      update = n.came.update;
      cell = n.came.cell;
      origin = option_map record_of n.came.origin;
      genome = letters n.genome.value;
      children = n.children;
      lives = n.lives;
    } };
}

impl Node {
    /// A newcomer, which lives and has no child yet.
    pub(crate) fn new(newcomer: Ancestor) -> Node
        ensures { result ≡ record {
          parent = newcomer.parent;
          update = newcomer.update;
          cell = newcomer.cell;
          origin = newcomer.origin;
          genome = newcomer.genome;
          children = 0;
          lives = true;
        } }
    {
        let Ancestor { came, genome, .. } = newcomer;
        Node {
            came,
            genome,
            children: 0,
            lives: true,
        }
    }

    pub(crate) fn parent(&self) -> Option<u64>
        ensures { result ≡ self.now.parent }
    {
        self.came.parent
    }

    pub(crate) fn genome(&self) -> &Genome
        ensures { letters result.now ≡ self.now.genome }
    {
        &self.genome
    }

    /// It lives, or has a child in the tree.
    pub(crate) fn is_needed(&self) -> bool
        ensures { result ≡ is_needed self.now }
    {
        self.lives || self.children > 0
    }

    pub(crate) fn end_life(&mut self)
        ensures { self.new ≡ record self.old { lives = false } }
    {
        self.lives = false;
    }

    /// One child more is in the tree.
    pub(crate) fn gain_child(&mut self)
        requires { self.old.children < 2 ^ 63 }
        ensures { self.new ≡ record self.old { children = self.old.children + 1 } }
    {
        self.children += 1;
    }

    /// One child fewer is in the tree.
    pub(crate) fn lose_child(&mut self)
        requires { 0 < self.old.children }
        ensures { self.new ≡ record self.old { children = self.old.children - 1 } }
    {
        self.children -= 1;
    }

    /// Its link in a line of descent, with a record and a genome of its own.
    pub(crate) fn link(&self, alloc: Global, id: u64) -> Result<Link, Memory>
        ensures { IfOk result (λ link. link ≡ node_link id self.now) }
    {
        Ok(Link {
            id,
            parent: self.came.parent,
            update: self.came.update,
            cell: self.came.cell,
            origin: copy_of(alloc, &self.came.origin)?,
            genome: self.genome.copy(alloc)?,
        })
    }
}

fn copy_of(alloc: Global, origin: &Option<Origin>) -> Result<Option<Origin>, Memory>
    ensures { IfOk result (λ copy. option_map record_of copy ≡ option_map record_of origin.now) }
{
    match origin {
        Some(origin) => Ok(Some(origin.copy(alloc)?)),
        None => Ok(None),
    }
}
