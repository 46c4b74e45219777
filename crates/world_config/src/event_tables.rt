// The tables that print events.
ghost use Rattle.std.specs.Prelude.{◌≡◌, IfOk, OnOk, map, pos, string_bytes};
ghost use Rattle.world_config.specs.Prelude.{integer, no_members, string, items_view, table_view, view, letters, letters_text_of};
ghost use Rattle.world_config.specs.Events.{event_value};
ghost use Rattle.world_config.specs.EventTables.{event_members, insert_member, items_for};

use crate::event::{Event, What};
use genome::Genome;
use std::alloc::{AllocError, Global};
use toml::{Table, Value};

/// Puts the value at the name.
pub(crate) fn put(
    alloc: Global,
    table: &mut Table,
    name: &str,
    value: Value,
) -> Result<(), AllocError>
    ensures { OnOk result (table_view table.new ≡ insert_member name.entry.now (view value)
        (table_view table.old)) }
{
    let key = String::from_str(alloc, name)?;
    table.insert(key, value)?;
    Ok(())
}

/// The value that a number is.
pub(crate) fn number_value(n: u32) -> Value
    ensures { view result ≡ integer (pos n) }
{
    Value::from(i64::from(n))
}

fn put_number(alloc: Global, table: &mut Table, name: &str, n: u32) -> Result<(), AllocError>
    ensures { OnOk result (table_view table.new
        ≡ insert_member name.entry.now (integer (pos n)) (table_view table.old)) }
{
    put(alloc, table, name, number_value(n))
}

fn put_text(alloc: Global, table: &mut Table, name: &str, text: &str) -> Result<(), AllocError>
    ensures { OnOk result (table_view table.new
        ≡ insert_member name.entry.now (string text.entry.now) (table_view table.old)) }
{
    let value = Value::string(alloc, text)?;
    put(alloc, table, name, value)
}

/// The text of a genome by letters.
pub(crate) fn letters_of(alloc: Global, genome: &Genome) -> Result<String, AllocError>
    ensures { IfOk result (λ text. string_bytes text ≡ letters_text_of (letters genome.now)) }
{
    let letters = genome.letters();
    let mut text = String::with_capacity(alloc, letters.len())?;
    for letter in letters {
        text.push(char::from(letter.byte()))?;
    }
    Ok(text)
}

fn put_genome(
    alloc: Global,
    table: &mut Table,
    name: &str,
    genome: &Genome,
) -> Result<(), AllocError>
    ensures { OnOk result (table_view table.new
        ≡ insert_member name.entry.now (string (letters_text_of (letters genome.entry.now)))
        (table_view table.old)) }
{
    let text = letters_of(alloc, genome)?;
    put(alloc, table, name, Value::from(text))
}

/// Puts the keys of an event into an empty table.
fn put_event(alloc: Global, table: &mut Table, event: &Event) -> Result<(), AllocError>
    requires { table_view table.old ≡ no_members }
    ensures { OnOk result (table_view table.new
        ≡ event_members event.now.update (event_value event.now).what) }
{
    put_number(alloc, table, "update", event.update)?;
    match &event.what {
        What::Inject { cell, genome } => {
            put_genome(alloc, table, "letters", genome)?;
            put_text(alloc, table, "kind", "inject")?;
            put_number(alloc, table, "cell", *cell)
        }
        What::Clear { first, last } => {
            put_number(alloc, table, "last", *last)?;
            put_text(alloc, table, "kind", "clear")?;
            put_number(alloc, table, "first", *first)
        }
        What::Rate { name, ppm } => {
            put_number(alloc, table, "ppm", *ppm)?;
            put_text(alloc, table, "name", name.name())?;
            put_text(alloc, table, "kind", "rate")
        }
    }
}

fn event_table(alloc: Global, event: &Event) -> Result<Table, AllocError>
    ensures { IfOk result (λ table. table_view table
        ≡ event_members event.now.update (event_value event.now).what) }
{
    let mut table = Table::new(alloc);
    put_event(alloc, &mut table, event)?;
    Ok(table)
}

/// The tables of the events.
pub(crate) fn event_tables(alloc: Global, events: &[Event]) -> Result<Vec<Value>, AllocError>
    ensures { IfOk result (λ tables. items_view tables.items
        ≡ items_for (map event_value events.now)) }
{
    let mut tables = Vec::with_capacity(alloc, events.len())?;
    for event in events {
        tables.push_reserved(Value::Table(event_table(alloc, event)?));
    }
    Ok(tables)
}
