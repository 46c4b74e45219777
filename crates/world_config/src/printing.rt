// Printing a configuration.
ghost use Rattle.std.specs.Prelude.{◌≡◌, Ok, IfOk, string_bytes};
ghost use Rattle.world_config.specs.Prelude.{table_view};
ghost use Rattle.world_config.specs.Config.{config_of};
ghost use Rattle.world_config.specs.Printing.{members_for};
ghost use Rattle.world_config.specs.Values.{values_of};

use crate::config::Config;
use crate::event_tables::put;
use crate::key::KEYS;
use avida_port::Memory;
use std::alloc::{AllocError, Global};
use toml::Table;

/// The table of a configuration, whose keys are put in the order of the table of keys.
fn table_of(alloc: Global, config: &Config) -> Result<Table, AllocError>
    ensures { IfOk result (λ table. table_view table ≡ members_for (values_of config.now)) }
{
    let mut table = Table::new(alloc);
    for key in KEYS.iter() {
        let value = config.printed_at(alloc, *key)?;
        put(alloc, &mut table, key.name(), value)?;
    }
    Ok(table)
}

/// Writes a document with every key, which `read` reads as the same configuration.
pub fn print(alloc: Global, config: &Config) -> Result<String, Memory>
    ensures { IfOk result (λ text. config_of (string_bytes text) ≡ Ok (values_of config.now)) }
{
    let Ok(table) = table_of(alloc, config) else {
        return Err(Memory);
    };
    match toml::table_to_string(alloc, &table) {
        Ok(text) => Ok(text),
        Err(_) => Err(Memory),
    }
}
