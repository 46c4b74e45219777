// Trees of the living and their ancestors.
ghost use Rattle.std.specs.Prelude.{◌≡◌, [], None};
ghost use Rattle.mutations.specs.BirthRecord.{record_of};

use genome::{Genome, read_letters};
use lineage_log::Tree;
use mutations::{Base, Changes, Origin};
use std::alloc::Global;
use std::sync::Arc;
use std::test::Fail;

fn genome_of(alloc: Global) -> Result<Arc<Genome, Global>, Fail> {
    match read_letters(alloc, b"mmmmmmmm") {
        Ok(genome) => Ok(Arc::new(alloc, genome)?),
        Err(_) => Err("no genome".into()),
    }
}

fn unchanged(alloc: Global) -> Origin
    ensures { record_of result ≡ record { written = None; changes = [] } }
{
    Origin {
        base: Base::Parent,
        changes: Changes::from_vec(Vec::new(alloc)),
    }
}

#[test]
fn a_tree_keeps_the_ancestors_of_the_living(rt: HostRuntime) -> Result<(), Fail> {
    let alloc = rt.alloc();
    let mut tree = Tree::found(alloc, genome_of(alloc)?, 0)?;
    tree.born(alloc, 1, 0, 1, 1, unchanged(alloc))?;
    tree.born(alloc, 2, 1, 2, 2, unchanged(alloc))?;
    tree.died(0);
    assert_eq!(rt; tree.nodes(), 3);
    tree.died(2);
    assert_eq!(rt; tree.nodes(), 2);
    let path = tree.path(alloc, 1)?.into_vec();
    assert_eq!(rt; path.len(), 2);
    assert_eq!(rt; path[0].id, 0);
    assert_eq!(rt; path[1].id, 1);
    tree.died(1);
    assert_eq!(rt; tree.nodes(), 0);
    Ok(())
}
