/// Why a line that has a form is faulty.
#[derive(Clone, Copy, Debug, PartialEq, Eq)]
pub enum Reason {
    /// It doesn't fit what stands before it.
    BadOrder,
    /// The parent didn't live when the update began.
    UnknownParent,
    /// The record can't be applied to the parent's genome.
    BadChange,
}
