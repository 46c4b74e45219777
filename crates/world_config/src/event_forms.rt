// The forms of events.
ghost use Rattle.std.specs.Prelude.{◌≡◌, ◌≢◌, ◌≤◌, None, Some, Err, Ok, IfOk, IfErr, length, map, option_map, option_and_then, string_bytes};
ghost use Rattle.world_config.specs.Prelude.{list_all, list_any, bytes_eq, items_view, table_view, view, letters, spelled_by_letters};
ghost use Rattle.std.specs.BTreeMap as tree;
ghost use Rattle.toml.specs.Data.{as_str, get_member, table as table_data};
ghost use Rattle.world_config.specs.Events.{event_value, event_values, what_value, event_refusal, frame_value};
ghost use Rattle.world_config.specs.EventForms.{clear_of, event_of, events_of, genome_from, has_only, inject_of, number_from, rate_of, sized, what_of};

use crate::event::{Event, What};
use crate::events::Events;
use crate::lookup::found;
use crate::stop::ConfigStop;
use avida_port::Memory;
use genome::{Genome, GenomeStop};
use mutations::RateName;
use random_streams::MILLION;
use std::alloc::Global;
use toml::{Table, Value};

/// The numbers of a configuration that events keep to.
#[derive(Clone, Copy)]
pub(crate) struct Frame {
    pub last_cell: u32,
    pub updates: u32,
    pub least_length: u32,
    pub greatest_length: u32,
}

fn number_from(table: &Table, name: &str, least: u32, greatest: u32) -> Option<u32>
    ensures { result ≡ number_from least greatest (get_member name.now (table_view table.now)) }
{
    let number = found(table, name)?.as_integer()?;
    if i64::from(least) <= number && number <= i64::from(greatest) {
        Some(number as u32)
    } else {
        None
    }
}

fn text_at<'a>(table: &'a Table, name: &str) -> Option<&'a str>
    ensures { option_map (λ text. text.now) result ≡ option_and_then as_str (get_member name.now
        (table_view table.now)) }
{
    found(table, name)?.as_str()
}

/// The genome that a text spells by letters, where its length is within the frame.
fn genome_in(alloc: Global, text: &str, frame: &Frame) -> Result<Option<Genome>, Memory>
    ensures { IfOk result (λ genome. option_map letters genome
        ≡ sized frame.now.least_length frame.now.greatest_length (spelled_by_letters text.now)) }
{
    match genome::read_letters(alloc, text.as_bytes()) {
        Ok(genome) => {
            if frame.least_length <= genome.len() && genome.len() <= frame.greatest_length {
                Ok(Some(genome))
            } else {
                Ok(None)
            }
        }
        Err(GenomeStop::Memory) => Err(Memory),
        Err(_) => Ok(None),
    }
}

fn genome_from(
    alloc: Global,
    table: &Table,
    name: &str,
    frame: &Frame,
) -> Result<Option<Genome>, Memory>
    ensures { IfOk result (λ genome. option_map letters genome
        ≡ genome_from frame.now.least_length frame.now.greatest_length (get_member name.now
        (table_view table.now))) }
{
    match text_at(table, name) {
        Some(text) => genome_in(alloc, text, frame),
        None => Ok(None),
    }
}

fn is_among(names: &[&str], text: &str) -> bool
    ensures { result ≡ list_any (λ name. bytes_eq name.now text.now) names.now }
{
    names.iter().any(|name| *name == text)
}

fn keys_are_among(table: &Table, names: &[&str]) -> bool
    ensures { result
        ≡ list_all (λ key. list_any (λ name. bytes_eq name.now (string_bytes key)) names.now)
        (tree.keys table.now) }
{
    table.keys().all(|key| is_among(names, key.as_str()))
}

fn has_only(table: &Table, names: &[&str]) -> bool
    ensures { result ≡ has_only (map (λ name. name.now) names.now) (table_view table.now) }
{
    keys_are_among(table, names)
}

fn inject(alloc: Global, table: &Table, frame: &Frame) -> Result<Option<What>, Memory>
    ensures { IfOk result (λ what. option_map what_value what ≡ inject_of (frame_value frame.now)
        (table_view table.now)) }
{
    if !has_only(table, &["kind", "update", "cell", "letters"]) {
        return Ok(None);
    }
    let Some(cell) = number_from(table, "cell", 0, frame.last_cell) else {
        return Ok(None);
    };
    let genome = genome_from(alloc, table, "letters", frame)?;
    Ok(genome.map(|genome| What::Inject { cell, genome }))
}

fn clear(table: &Table, frame: &Frame) -> Option<What>
    ensures { option_map what_value result ≡ clear_of (frame_value frame.now)
        (table_view table.now) }
{
    if !has_only(table, &["kind", "update", "first", "last"]) {
        return None;
    }
    let last = number_from(table, "last", 0, frame.last_cell)?;
    let first = number_from(table, "first", 0, last)?;
    Some(What::Clear { first, last })
}

fn rate(table: &Table) -> Option<What>
    ensures { option_map what_value result ≡ rate_of (table_view table.now) }
{
    if !has_only(table, &["kind", "update", "name", "ppm"]) {
        return None;
    }
    let name = RateName::from_name(text_at(table, "name")?.as_bytes())?;
    let ppm = number_from(table, "ppm", 0, MILLION)?;
    Some(What::Rate { name, ppm })
}

fn what_in(alloc: Global, table: &Table, kind: &str, frame: &Frame) -> Result<Option<What>, Memory>
    ensures { IfOk result (λ what. option_map what_value what
        ≡ what_of (frame_value frame.now) (table_view table.now) kind.now) }
{
    match kind {
        "inject" => inject(alloc, table, frame),
        "clear" => Ok(clear(table, frame)),
        "rate" => Ok(rate(table)),
        _ => Ok(None),
    }
}

fn event_in(
    alloc: Global,
    table: &Table,
    frame: &Frame,
    least: u32,
) -> Result<Option<Event>, Memory>
    ensures { IfOk result (λ event. option_map event_value event
        ≡ event_of (frame_value frame.now) least (table_data (table_view table.now))) }
{
    let Some(update) = number_from(table, "update", least, frame.updates) else {
        return Ok(None);
    };
    let Some(kind) = text_at(table, "kind") else {
        return Ok(None);
    };
    let what = what_in(alloc, table, kind, frame)?;
    Ok(what.map(|what| Event { update, what }))
}

fn event(alloc: Global, value: &Value, frame: &Frame, least: u32) -> Result<Option<Event>, Memory>
    ensures { IfOk result (λ event. option_map event_value event
        ≡ event_of (frame_value frame.now) least (view value.now)) }
{
    match value.as_table() {
        Some(table) => event_in(alloc, table, frame, least),
        None => Ok(None),
    }
}

/// The events that the members are.
pub(crate) fn events(alloc: Global, members: &[Value], frame: &Frame) -> Result<Events, ConfigStop>
    requires { length members.now ≤ 1000 }
    ensures value { IfOk result (λ events.
        events_of (frame_value frame.now) (items_view members.now) ≡ Ok (event_values events)) }
    ensures refused { IfErr result (λ stop. stop ≢ ConfigStop.Memory
        → event_refusal (events_of (frame_value frame.now) (items_view members.now)) ≡ Some stop) }
{
    let mut events = Vec::with_capacity(alloc, members.len())?;
    let mut least = 1;
    for (place, member) in members.iter().enumerate() {
        match event(alloc, member, frame, least)? {
            Some(event) => {
                least = event.update;
                events.push_reserved(event);
            }
            None => {
                return Err(ConfigStop::BadEvent {
                    nth: place as u32 + 1,
                });
            }
        }
    }
    Ok(Events::from_vec(events))
}
