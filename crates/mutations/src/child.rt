// What a record makes of a parent's genome.
ghost use Rattle.std.specs.Prelude.{◌≡◌, ◌≢◌, ◌+◌, ◌∷◌, List, Ok, Err, IfOk, IfErr, OnOk};
ghost use Rattle.genome.specs.Genome.{IsGenome, letters};
ghost use Rattle.mutations.specs.declared.change.Change.{Change};
ghost use Rattle.mutations.specs.Change.{text_after};
ghost use Rattle.mutations.specs.BirthRecord.{child_of, record_of};

use crate::{ApplyStop, Base, Change, Origin};
use genome::{GREATEST_LENGTH, Genome, LEAST_LENGTH};
use instruction_set::Letter;
use std::alloc::{AllocError, Global};

/// The child's genome: the changes are made in turn on the base. The first change that has no
/// place, or that leaves a length which no genome has, rejects the record and is told by its
/// number.
pub fn apply(alloc: Global, parent: &Genome, origin: &Origin) -> Result<Genome, ApplyStop>
    ensures ok { IfOk result (λ child.
        child_of (letters parent.now) (record_of origin.now) ≡ Ok (letters child)) }
    ensures refused { IfErr result (λ stop. stop ≢ ApplyStop.Memory
        → child_of (letters parent.now) (record_of origin.now) ≡ Err stop) }
{
    apply_in(Vec::new(alloc), parent, origin)
}

/// What `apply` gives, with the child's letters in `room`, in place of what it holds. It takes
/// memory only where the room is too small.
pub fn apply_in(room: Vec<Letter>, parent: &Genome, origin: &Origin) -> Result<Genome, ApplyStop>
    ensures ok { IfOk result (λ child.
        child_of (letters parent.now) (record_of origin.now) ≡ Ok (letters child)) }
    ensures refused { IfErr result (λ stop. stop ≢ ApplyStop.Memory
        → child_of (letters parent.now) (record_of origin.now) ≡ Err stop) }
{
    let base = match &origin.base {
        Base::Parent => parent.letters(),
        Base::Written(written) => written.letters(),
    };
    changed(room, base, origin.changes.as_slice())
}

fn changed(room: Vec<Letter>, base: &[Letter], changes: &[Change]) -> Result<Genome, ApplyStop>
    requires { IsGenome base.now }
    ensures ok { IfOk result (λ child. text_after 1 changes.now base.now ≡ Ok (letters child)) }
    ensures refused { IfErr result (λ stop. stop ≢ ApplyStop.Memory
        → text_after 1 changes.now base.now ≡ Err stop) }
{
    let Ok(mut text) = roomy_copy(room, base, changes.len()) else {
        return Err(ApplyStop::Memory);
    };
    for (before, change) in changes.iter().enumerate() {
        change_text(&mut text, *change, before as u64 + 1)?;
    }
    match Genome::from_vec(text) {
        Ok(child) => Ok(child),
        Err(_) => unreachable!(),
    }
}

/// The most letters that a room has to spare once a child is in it.
const SPARE: usize = 16;

/// The base's letters, with room for so many more: a change makes the text longer by at most one.
fn roomy_copy(room: Vec<Letter>, base: &[Letter], more: usize) -> Result<Vec<Letter>, AllocError>
    ensures { IfOk result (λ text. text.items ≡ base.now) }
{
    let needed = base.len().saturating_add(more);
    let mut text = room;
    text.clear();
    if text.capacity() > needed.saturating_add(SPARE) {
        text.shrink_to(needed);
    }
    text.reserve_exact(needed)?;
    text.extend_from_slice(base)?;
    Ok(text)
}

/// Makes one change. A rejected change leaves the text.
fn change_text(text: &mut Vec<Letter>, change: Change, nth: u64) -> Result<(), ApplyStop>
    requires { IsGenome text.old.items }
    ensures ok { OnOk result ((rest : List Change) → text_after nth (change ∷ rest) text.old.items
        ≡ text_after (nth + 1) rest text.new.items) }
    ensures genome { OnOk result (IsGenome text.new.items) }
    ensures refused { IfErr result (λ stop. stop ≢ ApplyStop.Memory
        → (rest : List Change) → text_after nth (change ∷ rest) text.old.items ≡ Err stop) }
{
    let len = text.len();
    match change {
        Change::Point { at, letter } => {
            if len <= at as usize {
                return Err(ApplyStop::Place { nth });
            }
            text[at as usize] = letter;
            Ok(())
        }
        Change::Insert { at, letter } => {
            if len < at as usize {
                return Err(ApplyStop::Place { nth });
            }
            if len >= GREATEST_LENGTH as usize {
                return Err(ApplyStop::Length { nth });
            }
            match text.insert(at as usize, letter) {
                Ok(()) => Ok(()),
                Err(_) => Err(ApplyStop::Memory),
            }
        }
        Change::Delete { at } => {
            if len <= at as usize {
                return Err(ApplyStop::Place { nth });
            }
            if len <= LEAST_LENGTH as usize {
                return Err(ApplyStop::Length { nth });
            }
            text.remove(at as usize);
            Ok(())
        }
    }
}
