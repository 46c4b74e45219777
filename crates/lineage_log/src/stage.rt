/// How far an update of a log has come.
#[derive(Clone, Copy, Debug, PartialEq, Eq)]
pub enum Stage {
    /// No line of the update has come.
    Quiet,
    /// The last line was a death in this cell.
    Dying(u32),
    /// The last line was a birth.
    Placing,
    /// The last line was an event's.
    Happening,
}
