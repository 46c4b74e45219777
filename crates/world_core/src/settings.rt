// What a configuration sets for an update.
ghost use Rattle.std.specs.Prelude.{◌≡◌, ◌≤◌};
ghost use Rattle.world_core.specs.Prelude.{values_of, with_rate, rates_at, settings_at, placing_round_at, torus_of};
ghost use Rattle.birth_board.specs.Torus.{torus_numbers};
ghost use Rattle.divide_rules.specs.Rules.{rule_numbers};
ghost use Rattle.mutations.specs.Rates.{numbers_of};
ghost use Rattle.organism.specs.SettingNumbers.{setting_numbers};

use birth_board::{PlacingRound, Torus};
use divide_rules::DivideRules;
use mutations::{RateName, Rates};
use organism::Settings;
use world_config::{Config, What};

/// What a life in an update needs to know of its world.
#[tactic(auto, unfolding(world_rules::specs::Settings::settings_at))]
pub(crate) fn settings_at(config: &Config, update: u32) -> Settings
    ensures { setting_numbers result ≡ settings_at (values_of config.now) update }
{
    Settings {
        rates: rates_at(config, update),
        rules: rules_of(config),
        death: config.death,
        age_limit: config.age_limit,
        memory_limit: config.memory_limit,
    }
}

/// The rates at the keys, changed by the rate events of earlier updates in order.
#[tactic(auto, unfolding(world_rules::specs::Settings::rates_at))]
pub(crate) fn rates_at(config: &Config, update: u32) -> Rates
    ensures { numbers_of result ≡ rates_at (values_of config.now) update }
{
    let mut rates = first_rates(config);
    for event in config.event.as_slice() {
        if event.update < update {
            if let What::Rate { name, ppm } = event.what {
                rates = with_rate(rates, name, ppm);
            }
        }
    }
    rates
}

fn first_rates(config: &Config) -> Rates
    ensures { numbers_of result ≡ (values_of config.now).rates }
{
    Rates {
        copy: config.copy_error,
        insert: config.divide_insert,
        delete: config.divide_delete,
        site_point: config.site_point,
        site_insert: config.site_insert,
        site_delete: config.site_delete,
    }
}

fn with_rate(mut rates: Rates, name: RateName, ppm: u32) -> Rates
    requires { ppm ≤ 1000000 }
    ensures { numbers_of result ≡ with_rate (numbers_of rates) name ppm }
{
    match name {
        RateName::Copy => rates.copy = ppm,
        RateName::Insert => rates.insert = ppm,
        RateName::Delete => rates.delete = ppm,
        RateName::SitePoint => rates.site_point = ppm,
        RateName::SiteInsert => rates.site_insert = ppm,
        RateName::SiteDelete => rates.site_delete = ppm,
    }
    rates
}

fn rules_of(config: &Config) -> DivideRules
    ensures { rule_numbers result ≡ (values_of config.now).rules }
{
    DivideRules {
        least: config.least_length,
        greatest: config.greatest_length,
        executed_percent: config.executed_percent,
        copied_percent: config.copied_percent,
        need_alloc: config.need_alloc,
    }
}

/// The torus of the cells.
pub(crate) fn torus_of(config: &Config) -> Torus
    ensures { torus_numbers result ≡ torus_of (values_of config.now) }
{
    Torus {
        width: config.width,
        height: config.height,
    }
}

/// What the placing of an update needs besides the cells.
pub(crate) fn placing_round_at(config: &Config, update: u32, next_id: u64) -> PlacingRound
    ensures { result ≡ placing_round_at (values_of config.now) update next_id }
{
    PlacingRound {
        seed: config.seed,
        update,
        prefer_empty: config.prefer_empty,
        next_id,
    }
}
