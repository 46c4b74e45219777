// The rates of errors of a configuration.
#![tactic(auto, unfolding(crate::specs::Refusal::refusal_at, crate::specs::Lookup::number_at))]

ghost use Rattle.std.specs.Prelude.{◌≡◌, IfOk};
ghost use Rattle.std.specs.Result.{result_err};
ghost use Rattle.toml.specs.View.{table_view};
ghost use Rattle.mutations.specs.Rates.{numbers_of};
ghost use Rattle.world_config.specs.Groups.{rate_keys};
ghost use Rattle.world_config.specs.Refusal.{first_refusal};
ghost use Rattle.world_config.specs.Values.{rates_in_table};

use crate::key::Key;
use crate::lookup::number;
use crate::stop::ConfigStop;
use mutations::Rates;
use random_streams::MILLION;
use toml::Table;

/// The six rates of errors.
pub(crate) fn rates_in(table: &Table) -> Result<Rates, ConfigStop>
    ensures value { IfOk result (λ rates.
        rates_in_table (table_view table.now) ≡ numbers_of rates) }
    ensures refusal { first_refusal rate_keys (table_view table.now) ≡ result_err result }
{
    Ok(Rates {
        copy: number(table, Key::CopyError, 7500, 0, MILLION)?,
        insert: number(table, Key::DivideInsert, 50000, 0, MILLION)?,
        delete: number(table, Key::DivideDelete, 50000, 0, MILLION)?,
        site_point: number(table, Key::SitePoint, 0, 0, MILLION)?,
        site_insert: number(table, Key::SiteInsert, 0, 0, MILLION)?,
        site_delete: number(table, Key::SiteDelete, 0, 0, MILLION)?,
    })
}
