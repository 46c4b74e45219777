// The rules of a divide in a trace.
ghost use Rattle.std.specs.Prelude.{◌≡◌};
ghost use Rattle.organism.specs.Prelude.{rule_numbers};
ghost use Rattle.organism.specs.TracedStep.{trace_rules};

use divide_rules::DivideRules;
use genome::{GREATEST_LENGTH, LEAST_LENGTH};

/// The greatest length in a trace, unless the genome itself is longer.
pub const TRACE_LENGTH: u32 = 2048;

/// The percentage of places that a divide must have executed and copied in a trace.
pub const TRACE_PERCENT: u32 = 50;

/// The rules in the trace of a genome of this length.
#[tactic(auto, unfolding(crate::specs::TracedStep::trace_rules))]
pub(crate) fn trace_rules(genome_length: u32) -> DivideRules
    ensures { rule_numbers result ≡ trace_rules genome_length }
{
    if genome_length <= TRACE_LENGTH {
        DivideRules {
            least: LEAST_LENGTH,
            greatest: TRACE_LENGTH,
            executed_percent: TRACE_PERCENT,
            copied_percent: TRACE_PERCENT,
            need_alloc: true,
        }
    } else {
        DivideRules {
            least: LEAST_LENGTH,
            greatest: GREATEST_LENGTH,
            executed_percent: TRACE_PERCENT,
            copied_percent: TRACE_PERCENT,
            need_alloc: true,
        }
    }
}
