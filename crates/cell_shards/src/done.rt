use crate::finished::Finished;

/// A job that has run, with its number among the jobs, and what its looks ahead saw: nothing asks
/// for that, but a look whose outcome is not kept would be left out by the compiler.
#[derive(Drop)]
pub(crate) struct Done {
    pub(crate) number: usize,
    pub(crate) finished: Finished,
    pub(crate) seen: u64,
}
