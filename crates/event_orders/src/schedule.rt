// The events of a run.
use avida_port::Items;

/// An event that may happen next in a run. Cells, seats and observers are named by their numbers.
#[derive(Drop)]
pub enum ScheduleEvent {
    /// The cell lives, from the world as the update began.
    Run { cell: u32 },
    /// The seat interns a newborn of the cell, by its place among the cell's newborns.
    Intern { seat: u32, cell: u32, nth: u32 },
    /// The update ends, and the seat interns the genomes that its events inject.
    Gather { seat: u32 },
    /// The picture of the world is published.
    Publish,
    /// The observer looks at the picture with this number.
    Look { observer: u32, number: u32 },
    /// The observer hears of the picture with this number.
    Hear { observer: u32, number: u32 },
}

/// Events, in the order in which they happen.
pub type Schedule = Items<ScheduleEvent>;
