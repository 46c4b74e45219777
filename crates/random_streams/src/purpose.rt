ghost use Rattle.std.specs.Prelude.{◌≡◌};
ghost use Rattle.random_streams.specs.RandomStream.{purpose_number};

/// What the words of a stream are for.
#[derive(Clone, Copy, Debug, PartialEq, Eq)]
pub enum Purpose {
    /// The life of an update: errors of copying and of a divide.
    Run,
    /// Where a child is placed, and its inputs.
    Place,
}

impl Purpose {
    pub(crate) fn number(self) -> u64
        ensures { result ≡ purpose_number self }
    {
        match self {
            Purpose::Run => 0,
            Purpose::Place => 1,
        }
    }
}
