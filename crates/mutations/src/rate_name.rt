ghost use Rattle.std.specs.Prelude.{◌≡◌};
ghost use Rattle.mutations.specs.Rates.{name_of_rate, rate_named};

/// A rate by its name, in the order of `Rates`.
#[derive(Clone, Copy, Debug)]
pub enum RateName {
    Copy,
    Insert,
    Delete,
    SitePoint,
    SiteInsert,
    SiteDelete,
}

impl RateName {
    /// The name of the rate in a configuration and in a log.
    pub fn name(self) -> &'static str
        ensures name { result.now ≡ name_of_rate self }
    {
        match self {
            RateName::Copy => "copy_error",
            RateName::Insert => "divide_insert",
            RateName::Delete => "divide_delete",
            RateName::SitePoint => "site_point",
            RateName::SiteInsert => "site_insert",
            RateName::SiteDelete => "site_delete",
        }
    }

    /// The rate of this name. None for every other text.
    #[tactic(auto, unfolding(crate::specs::Rates::rate_named))]
    pub fn from_name(name: &[u8]) -> Option<RateName>
        ensures rate { result ≡ rate_named name.now }
    {
        match name {
            b"copy_error" => Some(RateName::Copy),
            b"divide_insert" => Some(RateName::Insert),
            b"divide_delete" => Some(RateName::Delete),
            b"site_point" => Some(RateName::SitePoint),
            b"site_insert" => Some(RateName::SiteInsert),
            b"site_delete" => Some(RateName::SiteDelete),
            _ => None,
        }
    }
}
