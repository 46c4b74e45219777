/// How the life of one update ended.
#[derive(Clone, Copy, Debug, PartialEq, Eq)]
pub enum Ran {
    Lives,
    /// The organism reached its age limit with this step of the update, counted from 1.
    Died { after: u64 },
}
