// What some updates count together.
ghost use Rattle.std.specs.Prelude.{◌<◌, ◌^◌};
ghost use Rattle.logged_run.specs.RunText.{AreSmall, AreSumsWith, IsSumWith};

use log_lines::Stats;

/// What some updates count together: the births, the deaths, and the bytes of the updates' texts.
#[derive(Clone, Copy)]
pub struct Sums {
    pub births: u128,
    pub deaths: u128,
    pub bytes: u128,
}

/// Those of no updates.
pub(crate) const NO_SUMS: Sums = Sums {
    births: 0,
    deaths: 0,
    bytes: 0,
};

/// A sum with a number more.
fn sum_with(sum: u128, more: u64) -> u128
    requires { sum < 2 ^ 100 }
    ensures { IsSumWith more sum result }
{
    sum + u128::from(more)
}

impl Sums {
    /// With what one update more counts.
    pub(crate) fn with(self, stats: &Stats, bytes: usize) -> Sums
        requires { AreSmall self }
        ensures { AreSumsWith stats.now bytes self result }
    {
        Sums {
            births: sum_with(self.births, stats.births),
            deaths: sum_with(self.deaths, stats.deaths),
            bytes: sum_with(self.bytes, bytes as u64),
        }
    }
}
