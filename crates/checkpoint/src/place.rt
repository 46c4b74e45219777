// Where the reader of a saved world stands between two lines.
ghost use Rattle.std.specs.Prelude.{◌≡◌, IfOk, option_map};
ghost use Rattle.checkpoint.specs.Prelude.{HasSavedForm, values_of_line, values_of_organism, Among, Before, Halfway, told_saved_line};
ghost use Rattle.checkpoint.specs.Reading.{saved_place_of};

use crate::half::Half;
use crate::so_far::SoFar;
use avida_port::Memory;
use saved_lines::SavedLine;
use std::alloc::Global;

#[derive(Drop)]
pub(crate) enum ReadPlace {
    /// Before the first line.
    Before,
    /// Between organisms.
    Among(SoFar),
    /// Behind the line of an organism.
    Halfway(Half),
    /// Behind the last line.
    After(SoFar),
}

/// The place after a line. None exactly where the line doesn't fit.
pub(crate) fn told_saved_line(
    alloc: Global,
    place: ReadPlace,
    line: SavedLine,
) -> Result<Option<ReadPlace>, Memory>
    requires { HasSavedForm (values_of_line line) }
    ensures { IfOk result
        (λ next. option_map saved_place_of next
        ≡ told_saved_line (saved_place_of place) (values_of_line line)) }
{
    match place {
        ReadPlace::Before => Ok(told_first(alloc, line)),
        ReadPlace::Among(so_far) => Ok(told_among(so_far, line)),
        ReadPlace::Halfway(half) => told_halfway(alloc, half, line),
        ReadPlace::After(_) => Ok(None),
    }
}

fn told_first(alloc: Global, line: SavedLine) -> Option<ReadPlace>
    requires { HasSavedForm (values_of_line line) }
    ensures { option_map saved_place_of result ≡ told_saved_line Before (values_of_line line) }
{
    match line {
        SavedLine::Head(head) => Some(ReadPlace::Among(SoFar::new(alloc, head))),
        _ => None,
    }
}

fn told_among(so_far: SoFar, line: SavedLine) -> Option<ReadPlace>
    requires { HasSavedForm (values_of_line line) }
    ensures { option_map saved_place_of result
        ≡ told_saved_line (Among so_far.head so_far.placed) (values_of_line line) }
{
    match line {
        SavedLine::Organism(organism) => {
            if so_far.may_stand(&organism) {
                Some(ReadPlace::Halfway(Half { so_far, organism }))
            } else {
                None
            }
        }
        SavedLine::Count(organisms) if organisms == so_far.len() as u64 => {
            Some(ReadPlace::After(so_far))
        }
        _ => None,
    }
}

fn told_halfway(alloc: Global, half: Half, line: SavedLine) -> Result<Option<ReadPlace>, Memory>
    requires { HasSavedForm (values_of_line line) }
    ensures { IfOk result (λ next. option_map saved_place_of next
        ≡ told_saved_line
        (Halfway half.so_far.head half.so_far.placed (values_of_organism half.organism))
        (values_of_line line)) }
{
    let SavedLine::Machine(image) = line else {
        return Ok(None);
    };
    let Half { so_far, organism } = half;
    if !so_far.may_follow(&organism, &image) {
        return Ok(None);
    }
    let so_far = so_far.with_organism(alloc, organism, image)?;
    Ok(Some(ReadPlace::Among(so_far)))
}
