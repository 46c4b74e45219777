// The phylogeny of a log.
ghost use Rattle.std.specs.Prelude.{◌≡◌, IfOk, length};
ghost use Rattle.phylogeny.specs.CommonAncestor.{branches_of, depths_of, kept_ids_of, most_recent_common_ancestor};
ghost use Rattle.phylogeny.specs.TreeText.{pedigree_of};

use crate::depths::depths_in;
use crate::pedigree::read_pedigree;
use crate::shape::shape_of;
use crate::tree::Phylogeny;
use avida_port::Memory;
use lineage_log::Log;
use std::alloc::Global;

/// The phylogeny of the organisms alive at the end of a log.
pub fn phylogeny(alloc: Global, log: &Log) -> Result<Phylogeny, Memory>
    ensures depths { IfOk result (λ tree. tree.depths ≡ depths_of (pedigree_of log.now)) }
    ensures common { IfOk result
        (λ tree. tree.common ≡ most_recent_common_ancestor (pedigree_of log.now)) }
    ensures kept { IfOk result (λ tree. tree.kept ≡ length (kept_ids_of (pedigree_of log.now))) }
    ensures branches { IfOk result
        (λ tree. tree.branches ≡ length (branches_of (pedigree_of log.now))) }
{
    let pedigree = read_pedigree(alloc, log)?;
    let depths = depths_in(alloc, &pedigree.parents, &pedigree.standing)?;
    let shape = shape_of(alloc, &pedigree.parents, &pedigree.standing)?;
    Ok(Phylogeny {
        depths,
        common: shape.common,
        kept: shape.kept,
        branches: shape.branches,
    })
}
