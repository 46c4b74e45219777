// Reading a document.
ghost use Rattle.std.specs.Prelude.{◌≡◌, ◌≢◌, ◌≤◌, ℕ, None, Some, Ok, Err, IfOk, IfErr, OnOk, length};
ghost use Rattle.world_config.specs.Prelude.{array, no_items, string, items_view, table_view, letters, spelled_by_letters, IsWithin};
ghost use Rattle.world_config.specs.declared.key.Key.{Key};
ghost use Rattle.world_config.specs.KeyTable.{default_ancestor, events, genome, keys};
ghost use Rattle.world_config.specs.Config.{config_in, config_of, unless_refused, values_with};
ghost use Rattle.world_config.specs.Lookup.{frame_in, items_at, letters_of_value, value_or};
ghost use Rattle.world_config.specs.Refusal.{first_refusal, refusal_of, unless_genome};
ghost use Rattle.world_config.specs.EventForms.{events_of};
ghost use Rattle.world_config.specs.Values.{values_of};

use crate::config::Config;
use crate::event_forms::events;
use crate::groups::LengthKeys;
use crate::key::Key;
use crate::key_text::KeyText;
use crate::limits::MOST_EVENTS;
use crate::lookup::{bounded, members, text};
use crate::numbers::Numbers;
use crate::stop::ConfigStop;
use crate::unknown::least_unknown;
use genome::{Genome, GenomeStop};
use std::alloc::Global;
use toml::{Table, Value};

/// The default ancestor's letters.
const ANCESTOR: &str =
    "wzcagcccccccccccccccccccccccccccccccccccccccccccccccccccccccccccccccccccccccccccccccccccccczvfcaxgab";

fn genome_in(alloc: Global, text: &str) -> Result<Genome, ConfigStop>
    ensures value { IfOk result (λ genome. spelled_by_letters text.now ≡ Ok (letters genome)) }
    ensures refused { IfErr result (λ stop. stop ≢ ConfigStop.Memory
        → (key : Key) (least greatest : ℕ)
        → unless_genome key least greatest (spelled_by_letters text.now) ≡ Some stop) }
{
    match genome::read_letters(alloc, text.as_bytes()) {
        Ok(genome) => Ok(genome),
        Err(GenomeStop::Memory) => Err(ConfigStop::Memory),
        Err(stop) => Err(ConfigStop::BadAncestor { stop }),
    }
}

/// The ancestor, within the two lengths.
fn ancestor_in(alloc: Global, table: &Table, lengths: &LengthKeys) -> Result<Genome, ConfigStop>
    ensures value { IfOk result (λ genome.
        letters_of_value (value_or Key.Ancestor (string default_ancestor) (table_view table.now))
        ≡ letters genome) }
    ensures within { IfOk result (λ genome.
        IsWithin lengths.now.least_length lengths.now.greatest_length (length (letters genome))) }
    ensures accepted { OnOk result (
        refusal_of (genome lengths.now.least_length lengths.now.greatest_length) Key.Ancestor
        (value_or Key.Ancestor (string default_ancestor) (table_view table.now)) ≡ None) }
    ensures refused { IfErr result (λ stop. stop ≢ ConfigStop.Memory
        → refusal_of (genome lengths.now.least_length lengths.now.greatest_length) Key.Ancestor
        (value_or Key.Ancestor (string default_ancestor) (table_view table.now)) ≡ Some stop) }
{
    let genome = genome_in(alloc, text(table, Key::Ancestor, ANCESTOR)?)?;
    bounded(
        Key::Ancestor,
        i64::from(genome.len()),
        lengths.least_length,
        u64::from(lengths.greatest_length),
    )?;
    Ok(genome)
}

/// The members of the events, which are not too many.
#[tactic(auto, using(crate::proofs::RefusalLemmas::item_count_of_view))]
fn members_in(table: &Table) -> Result<&[Value], ConfigStop>
    ensures value { IfOk result (λ members.
        value_or Key.Event (array no_items) (table_view table.now) ≡ array
        (items_view members.now)) }
    ensures within { IfOk result (λ members. length members.now ≤ 1000) }
    ensures accepted { OnOk result (refusal_of (events 1000) Key.Event
        (value_or Key.Event (array no_items) (table_view table.now)) ≡ None) }
    ensures refused { IfErr result (λ stop. refusal_of (events 1000) Key.Event
        (value_or Key.Event (array no_items) (table_view table.now)) ≡ Some stop) }
{
    let members = members(table, Key::Event)?;
    if members.len() > MOST_EVENTS as usize {
        return Err(ConfigStop::OutOfRange {
            key: Key::Event,
            value: members.len() as i64,
        });
    }
    Ok(members)
}

/// The configuration of a table whose keys all have rows.
fn known_in(alloc: Global, table: &Table) -> Result<Config, ConfigStop>
    ensures value { IfOk result (λ config. unless_refused (first_refusal keys
        (table_view table.now))
        (values_with (table_view table.now) (events_of (frame_in
        (table_view table.now)) (items_at Key.Event (table_view table.now))))
        ≡ Ok (values_of config)) }
    ensures refused { IfErr result (λ stop. stop ≢ ConfigStop.Memory →
        unless_refused (first_refusal keys (table_view table.now))
        (values_with (table_view table.now) (events_of (frame_in
        (table_view table.now)) (items_at Key.Event (table_view table.now))))
        ≡ Err stop) }
{
    let numbers = Numbers::read(table)?;
    let ancestor = ancestor_in(alloc, table, &numbers.lengths)?;
    let members = members_in(table)?;
    let event = events(alloc, members, &numbers.frame())?;
    Ok(Config::of_numbers(&numbers, ancestor, event))
}

/// The configuration of a table.
pub(crate) fn config_in(alloc: Global, table: &Table) -> Result<Config, ConfigStop>
    ensures value { IfOk result (λ config. config_in (table_view table.now)
        ≡ Ok (values_of config)) }
    ensures refused { IfErr result (λ stop. stop ≢ ConfigStop.Memory → config_in
        (table_view table.now) ≡ Err stop) }
{
    if let Some(key) = least_unknown(table) {
        return Err(ConfigStop::UnknownKey {
            key: KeyText::copy_of(key)?,
        });
    }
    known_in(alloc, table)
}

/// Reads a document as a configuration, or tells the first reason to reject it.
pub fn read(alloc: Global, bytes: &[u8]) -> Result<Config, ConfigStop>
    ensures ok { IfOk result (λ config. config_of bytes.now ≡ Ok (values_of config)) }
    ensures refused { IfErr result (λ stop. stop ≢ ConfigStop.Memory → config_of bytes.now
        ≡ Err stop) }
{
    match toml::table_from_slice(alloc, bytes) {
        Ok(table) => config_in(alloc, &table),
        Err(error) if error.is_memory() => Err(ConfigStop::Memory),
        Err(_) => Err(ConfigStop::BadToml),
    }
}
