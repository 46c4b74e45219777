// The answer to the question of a divide.
ghost use Rattle.std.specs.Prelude.{◌≡◌, ◌*◌, ◌≤◌, ◌↔◌};
ghost use Rattle.genome.specs.Lengths.{shortest_genome, longest_genome};
ghost use Rattle.divide_rules.specs.Rules.{rule_numbers};
ghost use Rattle.divide_rules.specs.Viability.{verdict_of, IsViable};

use crate::{DivideAsk, DivideRules, Rule};

/// Whether a divide keeps every rule, or which one it breaks first: what was found, and the bound
/// that it missed.
#[derive(Clone, Copy, Debug, PartialEq, Eq)]
pub enum Verdict {
    Viable,
    Broken { rule: Rule, found: u32, bound: u32 },
}

/// The verdict on a divide of a parent whose genome has this length.
#[tactic(auto, unfolding(crate::specs::Viability::verdict_of))]
pub fn judge(ask: &DivideAsk, genome_len: u32, rules: &DivideRules) -> Verdict
    requires long_enough { shortest_genome ≤ genome_len }
    requires short_enough { genome_len ≤ longest_genome }
    ensures verdict { result ≡ verdict_of ask.now genome_len (rule_numbers rules.now) }
    ensures viable { (result ≡ Verdict.Viable)
        ↔ IsViable ask.now genome_len (rule_numbers rules.now) }
{
    if rules.need_alloc && !ask.allocated {
        return broken(Rule::V1, 0, 1);
    }
    let least = rules.least.max(genome_len.div_ceil(2));
    let greatest = rules.greatest.min(2 * genome_len);
    if ask.read < least {
        return broken(Rule::V2, ask.read, least);
    }
    if ask.read > greatest {
        return broken(Rule::V2, ask.read, greatest);
    }
    if ask.end <= ask.read {
        return broken(Rule::V3, ask.end, ask.read + 1);
    }
    let child = ask.end - ask.read;
    if child < least {
        return broken(Rule::V4, child, least);
    }
    if child > greatest {
        return broken(Rule::V4, child, greatest);
    }
    let executed = rules.executed_percent * ask.read;
    if hundredfold(ask.executed) < u64::from(executed) {
        return broken(Rule::V5, ask.executed, executed.div_ceil(100));
    }
    let copied = rules.copied_percent * child;
    if hundredfold(ask.copied) < u64::from(copied) {
        return broken(Rule::V6, ask.copied, copied.div_ceil(100));
    }
    Verdict::Viable
}

/// A count is any number, so a hundred times it needs more bits.
fn hundredfold(count: u32) -> u64
    ensures { result ≡ 100 * count }
{
    100 * u64::from(count)
}

fn broken(rule: Rule, found: u32, bound: u32) -> Verdict
    ensures { result ≡ Verdict.Broken rule found bound }
{
    Verdict::Broken { rule, found, bound }
}
