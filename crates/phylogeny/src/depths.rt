// How far the living are from their founders.
ghost use Rattle.std.specs.Prelude.{◌≡◌, ℕ, ◌<◌, [], Some, IfOk, length, slice_get, ◌-◌};
ghost use Rattle.phylogeny.specs.CommonAncestor.{depths_of, founding_ancestor_of, ancestors_of};
ghost use Rattle.phylogeny.specs.Slots.{HaveLowerIds, IsPedigree, pedigree_with};

use avida_port::{Items, Memory};
use std::alloc::Global;

/// How many generations an organism that lives is from its founder.
#[derive(Clone, Copy, Debug, PartialEq, Eq)]
pub struct Depth {
    pub cell: u32,
    pub id: u64,
    pub depth: u64,
    pub founder: u64,
}

/// The depth of each organism that lives, in order of cells.
pub type Depths = Items<Depth>;

/// The depth and the founder of an id.
#[derive(Clone, Copy)]
struct Root {
    depth: u64,
    founder: u64,
}

pub fn depths_in(
    alloc: Global,
    parents: &[Option<u64>],
    standing: &[Option<u64>],
) -> Result<Depths, Memory>
    requires { IsPedigree parents.now standing.now }
    ensures { IfOk result (λ depths. depths ≡ depths_of (pedigree_with parents.now standing.now)) }
{
    let roots = roots_of(alloc, parents)?;
    let mut depths = Vec::new(alloc);
    for (cell, slot) in standing.iter().enumerate() {
        if let Some(id) = slot {
            let Root { depth, founder } = roots[*id as usize];
            depths.push(Depth {
                cell: cell as u32,
                id: *id,
                depth,
                founder,
            })?;
        }
    }
    Ok(Depths::from_vec(depths))
}

/// The depth and the founder of each id.
fn roots_of(alloc: Global, parents: &[Option<u64>]) -> Result<Vec<Root>, Memory>
    requires { HaveLowerIds parents.now }
    ensures { IfOk result (λ roots. (id : ℕ) → id < length parents.now
        → slice_get roots.items id ≡ Some (record {
          depth = length (ancestors_of (pedigree_with parents.now []) id) - 1;
          founder = founding_ancestor_of (pedigree_with parents.now []) id;
        })) }
{
    let mut roots: Vec<Root> = Vec::with_capacity(alloc, parents.len())?;
    for (id, parent) in parents.iter().enumerate() {
        let root = match parent {
            Some(parent) => {
                let above = roots[*parent as usize];
                Root {
                    depth: above.depth + 1,
                    founder: above.founder,
                }
            }
            None => Root {
                depth: 0,
                founder: id as u64,
            },
        };
        roots.push(root)?;
    }
    Ok(roots)
}
