/// What h-divide found in the machine: whether an allocation is pending, where the child's part
/// begins and ends, how many places of the parent's part were executed, and how many of the child's
/// part were copied.
#[derive(Clone, Copy, Debug, PartialEq, Eq)]
pub struct DivideAsk {
    pub allocated: bool,
    pub read: u32,
    pub end: u32,
    pub executed: u32,
    pub copied: u32,
}
