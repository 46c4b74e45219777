// A tree of the living and their ancestors.
ghost use Rattle.std.specs.Prelude.{◌≡◌, ℕ, Contains, IfOk, IsOk, IsSome, None, Ok, OnErr, OnOk, Some, List, length};
ghost use Rattle.lineage_log.specs.Prelude.{Letter, letters, child_of, record_of};
ghost use Rattle.lineage_log.specs.Ancestry.{line_of_descent, link_of, CanCome, IsPruned, founded_by, genome_in_tree, tree_with_death, tree_with_newcomer};

use crate::ancestor::{Ancestor, Provenance};
use crate::link::Path;
use crate::nodes::{Nodes, bury, enter};
use avida_port::Memory;
use genome::Genome;
use mutations::{ApplyStop, Origin, apply};
use std::alloc::Global;
use std::collections::HashMap;
use std::marker::Model;
use std::sync::Arc;

/// The living and their ancestors: of the others nothing is kept.
#[derive(Drop)]
pub struct Tree {
    nodes: Nodes,
}

impl Model for Tree {
    ghost use Rattle.lineage_log.specs.Nodes.{AreNodes, id_order, tree_of};
    ghost use Rattle.lineage_log.specs.Ancestry.{TreeValue};

    ghost Value = { TreeValue };

    ghost view = { λ t. tree_of (id_order t.nodes.entries) };

    ghost invariant = { λ t. AreNodes (id_order t.nodes.entries) };
}

impl Tree {
    /// The founder of update 0, with id 0, which lives.
    pub fn found(alloc: Global, genome: Arc<Genome, Global>, cell: u32) -> Result<Tree, Memory>
        ensures { IfOk result (λ tree. tree ≡ founded_by (record {
          id = 0;
          parent = None;
          update = 0;
          cell = cell;
          origin = None;
          genome = letters genome.value;
        })) }
    {
        let mut tree = Tree {
            nodes: HashMap::new(alloc),
        };
        tree.founded(0, 0, cell, genome)?;
        Ok(tree)
    }

    /// An organism comes, and lives. If memory runs out, nothing changes.
    pub fn enter(&mut self, newcomer: Ancestor) -> Result<(), Memory>
        requires { CanCome self.old newcomer.id newcomer.parent }
        ensures ok { OnOk result (self.new ≡ tree_with_newcomer self.old newcomer) }
        ensures err { OnErr result (self.new ≡ self.old) }
    {
        enter(&mut self.nodes, newcomer)
    }

    /// A child of an organism of the tree comes, with the genome that its record makes of its
    /// parent's. If memory runs out, nothing changes.
    pub fn born(
        &mut self,
        alloc: Global,
        id: u64,
        parent: u64,
        update: u32,
        cell: u32,
        origin: Origin,
    ) -> Result<(), Memory>
        requires can_come { CanCome self.old id (Some parent) }
        requires applies { IsOk (child_of (genome_in_tree self.old parent) (record_of origin)) }
        ensures ok { OnOk result ((child : List Letter)
            → child_of (genome_in_tree self.old parent) (record_of origin) ≡ Ok child
            → self.new ≡ tree_with_newcomer self.old (record {
              id = id;
              parent = Some parent;
              update = update;
              cell = cell;
              origin = Some (record_of origin);
              genome = child;
            })) }
        ensures err { OnErr result (self.new ≡ self.old) }
    {
        let child = self.child(alloc, parent, &origin)?;
        let came = Provenance {
            parent: Some(parent),
            origin: Some(origin),
            update,
            cell,
        };
        let genome = Arc::new(alloc, child)?;
        self.enter(Ancestor { id, came, genome })
    }

    /// A founder comes. If memory runs out, nothing changes.
    pub fn founded(
        &mut self,
        id: u64,
        update: u32,
        cell: u32,
        genome: Arc<Genome, Global>,
    ) -> Result<(), Memory>
        requires { CanCome self.old id None }
        ensures ok { OnOk result (self.new ≡ tree_with_newcomer self.old (record {
          id = id;
          parent = None;
          update = update;
          cell = cell;
          origin = None;
          genome = letters genome.value;
        })) }
        ensures err { OnErr result (self.new ≡ self.old) }
    {
        let came = Provenance {
            parent: None,
            origin: None,
            update,
            cell,
        };
        self.enter(Ancestor { id, came, genome })
    }

    /// An organism dies. Those that are neither living nor ancestors of the living leave the tree.
    /// It takes no memory.
    pub fn died(&mut self, id: u64)
        requires { Contains self.old.living id }
        ensures { self.new ≡ tree_with_death self.old id }
    {
        bury(&mut self.nodes, id);
    }

    /// The line of descent of an organism of the tree, its founder first.
    pub fn path(&self, alloc: Global, id: u64) -> Result<Path, Memory>
        requires { IsSome (link_of self.now.links id) }
        ensures { IfOk result (λ path. path ≡ line_of_descent self.now.links id) }
    {
        let mut links = Vec::new(alloc);
        let mut next = Some(id);
        while let Some(id) = next {
            let Some(node) = self.nodes.get(&id) else {
                unreachable!();
            };
            links.push(node.link(alloc, id)?)?;
            next = node.parent();
        }
        links.reverse();
        Ok(Path::from_vec(links))
    }

    /// How many organisms live or are an ancestor of one that lives.
    pub fn nodes(&self) -> u64
        ensures count { result ≡ length self.now.links }
        ensures kept { IsPruned self.now }
        ensures living { (id : ℕ) → Contains self.now.living id
            → IsSome (link_of self.now.links id) }
    {
        self.nodes.len() as u64
    }

    /// The genome that a record makes of that of an organism of the tree.
    fn child(&self, alloc: Global, parent: u64, origin: &Origin) -> Result<Genome, Memory>
        requires there { IsSome (link_of self.now.links parent) }
        requires applies { IsOk (child_of (genome_in_tree self.now parent) (record_of origin.now)) }
        ensures { IfOk result (λ child. child_of (genome_in_tree self.now parent)
            (record_of origin.now)
            ≡ Ok (letters child)) }
    {
        let Some(node) = self.nodes.get(&parent) else {
            unreachable!();
        };
        match apply(alloc, node.genome(), origin) {
            Ok(child) => Ok(child),
            Err(stop) => match stop {
                ApplyStop::Memory => Err(Memory),
                _ => unreachable!(),
            },
        }
    }
}
