// The command `lineage`.
ghost use Rattle.std.specs.Prelude.{◌≡◌, ◌≤◌, ◌<◌, ◌*◌, ◌++◌, IfOk, OnOk, flat_map, option_map};
ghost use Rattle.avida_program.specs.Prelude.{SinkState, record_of, values_of, world_in, line_in, change, unchanged, WritesAll, IsFinalWorld};
ghost use Rattle.command_line.specs.declared.command.Command.TheVariants as command;
ghost use Rattle.avida_program.specs.Output.{origin_text, parent_text, path_line, path_lines, path_text, place_text};
ghost use Rattle.avida_program.specs.Commands.{CarriesOut};

use crate::call_error::CallError;
use crate::input::read_config_with;
use crate::puts::{put_rest, put_text};
use crate::run::leave;
use avida_port::{Gate, Memory, Sink, SinkStop, Source};
use command_line::Lineage;
use genome::letters_text;
use lineage_log::{Link, Path};
use log_lines::{write_number, write_record};
use logged_run::run_counted;
use mutations::Origin;
use std::alloc::Global;
use std::sync::Wait;
use std::thread::Threads;
use world_config::Config;
use world_core::World;
use written_texts::{Piece, kept, write_text};

fn add_parent(text: &mut Vec<u8>, parent: Option<u64>) -> Result<(), Memory>
    ensures { OnOk result (text.new.items ≡ text.old.items ++ parent_text parent) }
{
    match parent {
        Some(id) => write_number(b' ', id, text),
        None => {
            text.extend_from_slice(b" -")?;
            Ok(())
        }
    }
}

fn add_origin(text: &mut Vec<u8>, origin: &Option<Origin>) -> Result<(), Memory>
    ensures { OnOk result (text.new.items
        ≡ text.old.items ++ origin_text (option_map record_of origin.now)) }
{
    match origin {
        Some(origin) => write_record(origin, text),
        None => {
            text.extend_from_slice(b" - -")?;
            Ok(())
        }
    }
}

fn add_place(text: &mut Vec<u8>, link: &Link) -> Result<(), Memory>
    ensures { OnOk result (text.new.items ≡ text.old.items ++ place_text link.now) }
{
    text.push(b'P')?;
    write_number(b' ', link.id, text)?;
    add_parent(text, link.parent)?;
    write_number(b' ', u64::from(link.update), text)?;
    write_number(b' ', u64::from(link.cell), text)
}

/// Appends the line of one of a line of descent.
fn add_link(text: &mut Vec<u8>, link: &Link) -> Result<(), Memory>
    ensures { OnOk result (text.new.items ≡ text.old.items ++ path_line link.now) }
{
    add_place(text, link)?;
    add_origin(text, &link.origin)?;
    text.push(b' ')?;
    letters_text(&link.genome, text)?;
    text.push(b'\n')?;
    Ok(())
}

fn write_links<O: Sink>(alloc: Global, links: &[Link], out: &mut O) -> Result<(), SinkStop>
    ensures { WritesAll (O.seen out.old) (O.seen out.new) (flat_map path_line links.now) result }
{
    let mut piece = Piece::new();
    let mut text = Vec::new(alloc);
    for link in links {
        text.clear();
        add_link(&mut text, link)?;
        write_text(&mut piece, &text, out)?;
    }
    put_rest(&piece, out)
}

fn write_path<O: Sink>(alloc: Global, path: Option<Path>, out: &mut O) -> Result<(), SinkStop>
    ensures { WritesAll (O.seen out.old) (O.seen out.new) (path_lines path) result }
{
    match path {
        Some(path) => {
            let links = path.into_vec();
            write_links(alloc, &links, out)
        }
        None => put_text(b"-\n", out),
    }
}

/// Writes the line of descent of who stands in the cell.
fn write_descent<O: Sink>(
    alloc: Global,
    world: &World,
    cell: u32,
    out: &mut O,
) -> Result<(), SinkStop>
    requires { cell < world.now.config.width * world.now.config.height }
    ensures { WritesAll (O.seen out.old) (O.seen out.new)
        (path_lines (line_in (world_in world.now) cell)) result }
{
    let path = world.lineage(alloc, cell)?;
    write_path(alloc, path, out)
}

/// Runs a configuration to its end, and writes the line of descent of who stands in the cell then.
fn run_and_write<R: Threads + Wait + Sync, O: Sink, G: Gate + Sync>(
    rt: &R,
    alloc: Global,
    config: Config,
    cell: u32,
    workers: u32,
    out: &mut O,
    gate: &G,
) -> Result<World, SinkStop>
    requires workers { (1 ≤ workers) × (workers ≤ 64) }
    requires cell { cell < config.width * config.height }
    ensures world { IfOk result (IsFinalWorld (values_of config)) }
    ensures text { WritesAll (O.seen out.old) (O.seen out.new)
        (path_text (values_of config) cell) result }
{
    let (world, _) = run_counted(rt, alloc, config, workers, gate)?;
    let written = write_descent(alloc, &world, cell, out);
    kept(world, written)
}

/// Reads a configuration, runs it to its end, and writes the line of descent of the organism in the
/// cell. At its end the last world is left in `last`, and otherwise `last` stays as it was.
pub fn lineage<R: Threads + Wait + Sync, S: Source, O: Sink, G: Gate + Sync>(
    rt: &R,
    alloc: Global,
    asked: Lineage,
    source: &mut S,
    out: &mut O,
    last: &mut Option<World>,
    gate: &G,
) -> Result<(), CallError>
    requires { (1 ≤ asked.workers) × (asked.workers ≤ 64) }
    ensures { (watch : SinkState) → CarriesOut (command.Lineage asked) (record {
      source = change (S.seen source.old) (S.seen source.new);
      out = change (O.seen out.old) (O.seen out.new);
      watch = unchanged watch;
      last = change last.old last.new;
    }) result }
{
    let config = read_config_with(alloc, source, asked.cell)?;
    let world = run_and_write(rt, alloc, config, asked.cell, asked.workers, out, gate)?;
    leave(last, world);
    Ok(())
}
