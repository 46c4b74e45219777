// The changes of one letter.
ghost use Rattle.std.specs.Prelude.{◌≡◌, ◌≤◌, ◌++◌, IfOk, OnOk, length, map};
ghost use Rattle.landscape.specs.Landscape.{changes_of, others_from};

use avida_port::Memory;
use instruction_set::{LETTER_COUNT, Letter};
use std::alloc::Global;

/// A letter for a place.
#[derive(Clone, Copy)]
pub struct Change {
    pub at: u32,
    pub letter: Letter,
}

/// Each place with each letter but its own: places rise, and letters within a place.
#[tactic(auto, unfolding(crate::specs::Landscape::changes_of))]
pub fn changes_of(alloc: Global, genome: &[Letter]) -> Result<Vec<Change>, Memory>
    requires { length genome.now ≤ 8192 }
    ensures { IfOk result (λ changes. changes.items ≡ changes_of genome.now) }
{
    let mut changes = Vec::new(alloc);
    for (at, letter) in genome.iter().enumerate() {
        push_changes(&mut changes, at as u32, *letter)?;
    }
    Ok(changes)
}

fn push_changes(changes: &mut Vec<Change>, at: u32, letter: Letter) -> Result<(), Memory>
    ensures { OnOk result (changes.new.items ≡ changes.old.items
        ++ map (λ other. record { at = at; letter = other }) (others_from letter 0 26)) }
{
    for index in 0..LETTER_COUNT {
        if index == letter.index() {
            continue;
        }
        if let Some(other) = Letter::from_index(index) {
            changes.push(Change { at, letter: other })?;
        }
    }
    Ok(())
}
