// What the lines of the living have in common.
ghost use Rattle.std.specs.Prelude.{◌≡◌, ◌+◌, ◌<◌, ◌≤◌, ◌==◌, ◌^◌, ℕ, Some, IfOk, length, count_by, is_some, nat_le, slice_index, if◌then◌else◌};
ghost use Rattle.std.specs.Option.{option_or};
ghost use Rattle.phylogeny.specs.CommonAncestor.{branches_of, kept_ids_of, most_recent_common_ancestor};
ghost use Rattle.phylogeny.specs.Slots.{AreBelow, IsPedigree, living_from, pedigree_with};

use avida_port::Memory;
use std::alloc::Global;

/// The latest common ancestor of the living, how many ids stand in the line of one of them, and how
/// many of these have at least two children that do.
#[derive(Clone, Copy)]
pub struct Shape {
    pub common: Option<u64>,
    pub kept: u64,
    pub branches: u64,
}

/// Goes down the ids. Each hands on to its parent, so that all who descend from an id are counted
/// there when the walk comes to it.
pub fn shape_of(
    alloc: Global,
    parents: &[Option<u64>],
    standing: &[Option<u64>],
) -> Result<Shape, Memory>
    requires { IsPedigree parents.now standing.now }
    ensures common { IfOk result (λ shape. shape.common
        ≡ most_recent_common_ancestor (pedigree_with parents.now standing.now)) }
    ensures kept { IfOk result
        (λ shape. shape.kept ≡ length (kept_ids_of (pedigree_with parents.now standing.now))) }
    ensures branches { IfOk result
        (λ shape. shape.branches ≡ length (branches_of (pedigree_with parents.now standing.now))) }
{
    let living = count_living(standing);
    let mut descendants = each_at_its_id(alloc, standing, parents.len())?;
    let mut children = vec![in alloc; 0u64; parents.len()]?;
    let mut shape = Shape {
        common: None,
        kept: 0,
        branches: 0,
    };
    for id in (0..parents.len()).rev() {
        let below = descendants[id];
        if below == 0 {
            continue;
        }
        shape.keep(id as u64, children[id], below == living);
        if let Some(parent) = parents[id] {
            let above = parent as usize;
            descendants[above] += below;
            children[above] += 1;
        }
    }
    Ok(shape)
}

impl Shape {
    /// One id more, below all that were kept.
    fn keep(&mut self, id: u64, children: u64, is_common: bool)
        requires kept { self.old.kept + 1 < 2 ^ 64 }
        requires branches { self.old.branches ≤ self.old.kept }
        ensures kept { self.new.kept ≡ self.old.kept + 1 }
        ensures branches { self.new.branches
            ≡ self.old.branches + (if nat_le 2 children then 1 else 0) }
        ensures common { self.new.common
            ≡ (if is_common then option_or self.old.common (Some id) else self.old.common) }
    {
        self.kept += 1;
        if children >= 2 {
            self.branches += 1;
        }
        if is_common {
            self.common = self.common.or(Some(id));
        }
    }
}

/// How many live.
fn count_living(standing: &[Option<u64>]) -> u64
    ensures { result ≡ count_by is_some standing.now }
{
    standing.iter().filter(|slot| slot.is_some()).count() as u64
}

/// Counts each who lives at its own id.
fn each_at_its_id(alloc: Global, standing: &[Option<u64>], ids: usize) -> Result<Vec<u64>, Memory>
    requires among { AreBelow ids standing.now }
    requires few { length standing.now ≤ 65536 }
    ensures len { IfOk result (λ counts. length counts.items ≡ ids) }
    ensures counts { IfOk result (λ counts. (id : ℕ) → id < ids → slice_index counts.items id
        ≡ count_by (λ who. who.id == id) (living_from 0 standing.now)) }
{
    let mut counts = vec![in alloc; 0u64; ids]?;
    for slot in standing {
        if let Some(id) = slot {
            counts[*id as usize] += 1;
        }
    }
    Ok(counts)
}
