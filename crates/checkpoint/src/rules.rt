// The rules that the lines of one organism keep.
ghost use Rattle.std.specs.Prelude.{◌≡◌, ◌*◌, ◌^◌, ◌&&◌, ◌==◌, if◌then◌else◌, length, nat_le, nat_lt};
ghost use Rattle.checkpoint.specs.Prelude.{values_of_organism, head_values, are_within, is_young, may_follow};

use saved_lines::{OrganismLine, StateHead};
use virtual_cpu::CpuImage;

/// The greatest merit.
const GREATEST_MERIT: u64 = 1 << 38;

/// Above the greatest age.
const AGE_END: u64 = 1 << 48;

/// The merit is in order.
pub(crate) fn has_merit(line: &OrganismLine) -> bool
    ensures { result ≡ (nat_le 1 line.now.merit && nat_le line.now.merit (2 ^ 38)) }
{
    1 <= line.merit && line.merit <= GREATEST_MERIT
}

/// The genome's length is in order.
pub(crate) fn has_length(head: &StateHead, line: &OrganismLine) -> bool
    ensures { let genome = (values_of_organism line.now).genome in result
        ≡ (nat_le head.now.least_length (length genome)
        && nat_le (length genome) head.now.greatest_length) }
{
    let length = line.genome.len();
    head.least_length <= length && length <= head.greatest_length
}

/// It has not reached the age of death.
fn is_young(head: &StateHead, line: &OrganismLine) -> bool
    ensures { result ≡ is_young (head_values head.now) (values_of_organism line.now) }
{
    if head.death {
        line.age < u64::from(head.age_limit) * u64::from(line.genome.len())
    } else {
        true
    }
}

/// The age and the inputs read are in order.
pub(crate) fn has_age(head: &StateHead, line: &OrganismLine) -> bool
    ensures { result ≡ ((nat_lt line.now.age (2 ^ 48) && nat_le line.now.read line.now.age)
        && is_young (head_values head.now) (values_of_organism line.now)) }
{
    let young = is_young(head, line);
    line.age < AGE_END && line.read <= line.age && young
}

/// The heads are within memory.
fn are_within(image: &CpuImage) -> bool
    ensures { result ≡ are_within image.now }
{
    let length = image.memory.len();
    image.heads.iter().all(|head| (*head as usize) < length)
}

/// The four texts have one length.
fn have_one_length(image: &CpuImage) -> bool
    ensures { result ≡ ((length image.now.clean == length image.now.memory)
        && (length image.now.executed == length image.now.memory)
        && (length image.now.copied == length image.now.memory)) }
{
    let length = image.memory.len();
    image.clean.len() == length && image.executed.len() == length && image.copied.len() == length
}

/// Memory is not too long.
fn has_room(head: &StateHead, line: &OrganismLine, image: &CpuImage) -> bool
    ensures { result ≡ (nat_le (length image.now.memory) head.now.memory_limit
        && nat_le (length image.now.memory) ((if image.now.pending then 6 else 2)
        * length (values_of_organism line.now).genome)) }
{
    let length = image.memory.len();
    // The greatest length, as a multiple of the genome's.
    let growth = if image.pending { 6 } else { 2 };
    length <= head.memory_limit as usize && length <= growth * line.genome.len() as usize
}

/// The line of a machine may follow that of its organism.
pub(crate) fn may_follow(head: &StateHead, line: &OrganismLine, image: &CpuImage) -> bool
    ensures { result
        ≡ may_follow (head_values head.now) (values_of_organism line.now) image.now }
{
    let heads = are_within(image);
    let room = has_room(head, line, image);
    have_one_length(image) && room && heads
}
