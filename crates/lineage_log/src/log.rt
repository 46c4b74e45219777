// A good log.
ghost use Rattle.std.specs.Prelude.{◌≡◌, length, option_map, slice_get};
ghost use Rattle.lineage_log.specs.Prelude.{line_values};
ghost use Rattle.lineage_log.specs.LogGrammar.{IsGoodLog, newer, upgraded};
ghost use Rattle.lineage_log.specs.Readings.{lines_of};

use log_lines::{LAST_VERSION, LogLine};
use std::marker::Model;

/// The lines of a good log, in order.
#[derive(Drop)]
pub struct Log {
    lines: Vec<LogLine>,
}

impl Model for Log {
    ghost use Rattle.std.specs.Prelude.{List};
    ghost use Rattle.log_lines.specs.Line.{Line};
    ghost use Rattle.lineage_log.specs.LogGrammar.{IsGoodLog};
    ghost use Rattle.lineage_log.specs.Readings.{lines_of};

    ghost Value = { List Line };

    ghost view = { λ log. lines_of log.lines.items };

    ghost invariant = { λ log. IsGoodLog (lines_of log.lines.items) };
}

impl Log {
    pub(crate) fn from_lines(lines: Vec<LogLine>) -> Log
        requires { IsGoodLog (lines_of lines.items) }
        ensures { result ≡ lines_of lines.items }
    {
        Log { lines }
    }

    pub(crate) fn lines(&self) -> &[LogLine]
        ensures values { lines_of result.now ≡ self.now }
        ensures good { IsGoodLog (lines_of result.now) }
    {
        self.lines.as_slice()
    }

    /// The lines are those of a good log.
    pub fn is_good(&self)
        ensures { IsGoodLog self.now }
    {
        let _lines = self.lines();
    }

    /// The lines, in order. It takes no memory.
    pub fn into_vec(self) -> Vec<LogLine>
        ensures { lines_of result.items ≡ self }
    {
        self.lines
    }

    /// How many lines there are.
    pub fn len(&self) -> usize
        ensures { result ≡ length self.now }
    {
        self.lines.len()
    }

    /// The line at a place, counted from 0. None exactly where the place is not below `len`.
    pub fn get(&self, at: usize) -> Option<&LogLine>
        ensures { option_map (λ line. line_values line.now) result ≡ slice_get self.now at }
    {
        self.lines.get(at)
    }

    /// Puts the last version in the first line, and changes nothing else.
    #[tactic(auto, using(crate::proofs::UpgradeLemmas::upgraded_good))]
    pub fn upgrade(&mut self)
        ensures { self.new ≡ upgraded self.old }
    {
        renew_first(&mut self.lines);
    }
}

fn renew_first(lines: &mut Vec<LogLine>)
    ensures { lines_of lines.new.items ≡ upgraded (lines_of lines.old.items) }
{
    if !lines.is_empty() {
        renew(&mut lines[0]);
    }
}

fn renew(line: &mut LogLine)
    ensures { line_values line.new ≡ newer (line_values line.old) }
{
    if let LogLine::Start { version, .. } = line {
        *version = LAST_VERSION;
    }
}
