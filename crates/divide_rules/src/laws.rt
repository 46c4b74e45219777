ghost use Rattle.std.specs.Prelude.{◌≡◌, ℕ};
ghost use Rattle.divide_rules.specs.declared.ask.DivideAsk.{DivideAsk};
ghost use Rattle.divide_rules.specs.declared.limits.DivideRules.{DivideRules};
ghost use Rattle.divide_rules.specs.declared.verdict.Verdict.TheVariants.{Viable};
ghost use Rattle.divide_rules.specs.Rules.{RuleNumbers, AreRules, rule_numbers};
ghost use Rattle.divide_rules.specs.Viability.{verdict_of, IsViable};

/// Rules keep the limits.
pub fn rules_keep_the_limits()
    ensures { (rules : DivideRules) → AreRules (rule_numbers rules) }
{}

/// A divide that breaks no rule keeps all six, whatever the length of the genome and whatever the
/// rules.
pub fn viable_divides_keep_the_rules()
    ensures { (ask : DivideAsk) (genome_length : ℕ) (rules : RuleNumbers)
        → verdict_of ask genome_length rules ≡ Viable
        → IsViable ask genome_length rules }
{}
