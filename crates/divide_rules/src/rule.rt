// The six rules, by number.
ghost use Rattle.std.specs.Prelude.{◌≡◌};
ghost use Rattle.divide_rules.specs.Rules.{rule_name_of};

/// A rule of a divide, in the order in which they are tried.
#[derive(Clone, Copy, Debug, PartialEq, Eq)]
pub enum Rule {
    V1,
    V2,
    V3,
    V4,
    V5,
    V6,
}

impl Rule {
    /// The number as it is written.
    pub fn name(self) -> &'static str
        ensures { result.now ≡ rule_name_of self }
    {
        match self {
            Rule::V1 => "V1",
            Rule::V2 => "V2",
            Rule::V3 => "V3",
            Rule::V4 => "V4",
            Rule::V5 => "V5",
            Rule::V6 => "V6",
        }
    }
}
