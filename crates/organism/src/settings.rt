use divide_rules::DivideRules;
use mutations::Rates;

/// What a life needs to know of its world.
#[derive(Clone, Copy, Debug)]
pub struct Settings {
    pub rates: Rates,
    pub rules: DivideRules,
    pub death: bool,
    /// The age of death, as a multiple of the genome's length.
    pub age_limit: u32,
    pub memory_limit: u32,
}
