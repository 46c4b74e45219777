// The keys of a configuration.
ghost use Rattle.std.specs.Prelude.{◌≡◌};

/// A key, in the order in which the keys are tried.
#[derive(Clone, Copy)]
pub enum Key {
    Width,
    Height,
    Updates,
    Seed,
    FounderCell,
    AverageSlices,
    Death,
    AgeLimit,
    CopyError,
    DivideInsert,
    DivideDelete,
    SitePoint,
    SiteInsert,
    SiteDelete,
    PreferEmpty,
    NeedAlloc,
    ExecutedPercent,
    CopiedPercent,
    LeastLength,
    GreatestLength,
    MemoryLimit,
    Ancestor,
    Event,
}

/// Every key, in order.
pub(crate) const KEYS: [Key; 23] = [
    Key::Width,
    Key::Height,
    Key::Updates,
    Key::Seed,
    Key::FounderCell,
    Key::AverageSlices,
    Key::Death,
    Key::AgeLimit,
    Key::CopyError,
    Key::DivideInsert,
    Key::DivideDelete,
    Key::SitePoint,
    Key::SiteInsert,
    Key::SiteDelete,
    Key::PreferEmpty,
    Key::NeedAlloc,
    Key::ExecutedPercent,
    Key::CopiedPercent,
    Key::LeastLength,
    Key::GreatestLength,
    Key::MemoryLimit,
    Key::Ancestor,
    Key::Event,
];

impl Key {
    ghost use Rattle.world_config.specs.KeyTable.{key_name};

    /// The key's text in a document.
    pub fn name(self) -> &'static str
        ensures { result.now ≡ key_name self }
    {
        match self {
            Key::Width => "width",
            Key::Height => "height",
            Key::Updates => "updates",
            Key::Seed => "seed",
            Key::FounderCell => "founder_cell",
            Key::AverageSlices => "average_slices",
            Key::Death => "death",
            Key::AgeLimit => "age_limit",
            Key::CopyError => "copy_error",
            Key::DivideInsert => "divide_insert",
            Key::DivideDelete => "divide_delete",
            Key::SitePoint => "site_point",
            Key::SiteInsert => "site_insert",
            Key::SiteDelete => "site_delete",
            Key::PreferEmpty => "prefer_empty",
            Key::NeedAlloc => "need_alloc",
            Key::ExecutedPercent => "executed_percent",
            Key::CopiedPercent => "copied_percent",
            Key::LeastLength => "least_length",
            Key::GreatestLength => "greatest_length",
            Key::MemoryLimit => "memory_limit",
            Key::Ancestor => "ancestor",
            Key::Event => "event",
        }
    }
}
