// The line that tells why a call isn't done, made in a fixed text.
ghost use Rattle.std.specs.Prelude.{◌≡◌, ◌≤◌, ◌+◌, ◌++◌, length, codes, decimal, map};
ghost use Rattle.avida_program.specs.Prelude.{signed_decimal, array_vec_len, key_name};
ghost use Rattle.avida_program.specs.Status.{config_reason, fault_line, genome_reason, log_reason, reason_of, saved_reason, shown_byte, shown_key};

use crate::call_error::CallError;
use crate::refusal::Refusal;
use arrayvec::ArrayVec;
use checkpoint::SavedStop;
use genome::GenomeStop;
use lineage_log::LogStop;
use world_config::{ConfigStop, Key};
use written_texts::{push_natural, push_text};

/// A fault line has at most this many bytes.
pub const LONGEST_LINE: usize = 96;

/// A fault line shows at most this many bytes of an unknown key.
pub const SHOWN_BYTES: usize = 64;

type Line = ArrayVec<u8, LONGEST_LINE>;

fn push_number(line: &mut Line, before: &str, number: u64)
    requires { array_vec_len line.old + length before.now ≤ 64 }
    ensures items { line.new.items ≡ line.old.items ++ before.now ++ decimal number }
    ensures len { array_vec_len line.new ≤ array_vec_len line.old + length before.now + 20 }
{
    push_text(line, before);
    push_natural(line, number);
}

fn push_value(line: &mut Line, value: i64)
    requires { array_vec_len line.old ≤ 64 }
    ensures items { line.new.items ≡ line.old.items ++ signed_decimal value }
    ensures len { array_vec_len line.new ≤ array_vec_len line.old + 20 }
{
    let mut digits = itoa::Buffer::new();
    push_text(line, digits.format(value));
}

fn shown(byte: u8) -> u8
    ensures { result ≡ shown_byte byte }
{
    if 0x21 <= byte && byte <= 0x7E {
        byte
    } else {
        b'?'
    }
}

fn push_shown(line: &mut Line, bytes: &[u8])
    requires { array_vec_len line.old + length bytes.now ≤ LONGEST_LINE }
    ensures items { line.new.items ≡ line.old.items ++ map shown_byte bytes.now }
    ensures len { array_vec_len line.new ≡ array_vec_len line.old + length bytes.now }
{
    for byte in bytes {
        line.push(shown(*byte));
    }
}

#[tactic(auto, using(std::proofs::lemmas::List::take_min))]
fn push_unknown(line: &mut Line, key: &[u8])
    requires { array_vec_len line.old ≤ 28 }
    ensures items { line.new.items ≡ line.old.items ++ shown_key key.now }
    ensures len { array_vec_len line.new ≤ array_vec_len line.old + 64 }
{
    push_shown(line, &key[..SHOWN_BYTES.min(key.len())]);
}

fn push_key(line: &mut Line, before: &str, key: Key)
    requires { array_vec_len line.old + length before.now ≤ 40 }
    ensures items { line.new.items ≡ line.old.items ++ before.now ++ key_name key }
    ensures len { array_vec_len line.new ≤ array_vec_len line.old + length before.now + 16 }
{
    push_text(line, before);
    push_text(line, key.name());
}

fn push_genome_reason(line: &mut Line, stop: GenomeStop)
    requires { array_vec_len line.old ≤ 32 }
    ensures items { line.new.items ≡ line.old.items ++ genome_reason stop }
    ensures len { array_vec_len line.new ≤ array_vec_len line.old + 40 }
{
    match stop {
        GenomeStop::Memory => {}
        GenomeStop::BadLetter { at } => push_number(line, "letter at ", at),
        GenomeStop::BadName { line: number } => push_number(line, "name in line ", number),
        GenomeStop::TooShort { len } => push_number(line, "short ", len),
        GenomeStop::TooLong { len } => push_number(line, "long ", len),
    }
}

fn push_range(line: &mut Line, key: Key, value: i64)
    requires { array_vec_len line.old ≤ 20 }
    ensures items { line.new.items
        ≡ line.old.items ++ codes "range " ++ key_name key ++ codes " " ++ signed_decimal value }
    ensures len { array_vec_len line.new ≤ array_vec_len line.old + 43 }
{
    push_key(line, "range ", key);
    line.push(b' ');
    push_value(line, value);
}

fn push_ancestor(line: &mut Line, stop: GenomeStop)
    requires { array_vec_len line.old ≤ 20 }
    ensures items { line.new.items ≡ line.old.items ++ codes "ancestor " ++ genome_reason stop }
    ensures len { array_vec_len line.new ≤ array_vec_len line.old + 49 }
{
    push_text(line, "ancestor ");
    push_genome_reason(line, stop);
}

fn push_key_unknown(line: &mut Line, key: &[u8])
    requires { array_vec_len line.old ≤ 20 }
    ensures items { line.new.items ≡ line.old.items ++ codes "key " ++ shown_key key.now }
    ensures len { array_vec_len line.new ≤ array_vec_len line.old + 68 }
{
    push_text(line, "key ");
    push_unknown(line, key);
}

fn push_config_reason(line: &mut Line, stop: &ConfigStop)
    requires { array_vec_len line.old ≤ 20 }
    ensures items { line.new.items ≡ line.old.items ++ config_reason stop.now }
    ensures len { array_vec_len line.new ≤ array_vec_len line.old + 68 }
{
    match stop {
        ConfigStop::Memory => {}
        ConfigStop::BadToml => push_text(line, "toml"),
        ConfigStop::UnknownKey { key } => push_key_unknown(line, key.bytes()),
        ConfigStop::WrongKind { key } => push_key(line, "kind ", *key),
        ConfigStop::OutOfRange { key, value } => push_range(line, *key, *value),
        ConfigStop::BadAncestor { stop } => push_ancestor(line, *stop),
        ConfigStop::BadEvent { nth } => push_number(line, "event ", u64::from(*nth)),
    }
}

fn push_log_reason(line: &mut Line, stop: LogStop)
    requires { array_vec_len line.old ≤ 20 }
    ensures items { line.new.items ≡ line.old.items ++ log_reason stop }
    ensures len { array_vec_len line.new ≤ array_vec_len line.old + 40 }
{
    match stop {
        LogStop::Memory => {}
        LogStop::BadLine { line: number } => push_number(line, "line ", number),
        LogStop::BadOrder { line: number } => push_number(line, "order ", number),
        LogStop::UnknownParent { line: number } => push_number(line, "parent ", number),
        LogStop::BadChange { line: number } => push_number(line, "change ", number),
        LogStop::Unended { line: number } => push_number(line, "unended ", number),
    }
}

fn push_saved_reason(line: &mut Line, stop: SavedStop)
    requires { array_vec_len line.old ≤ 20 }
    ensures items { line.new.items ≡ line.old.items ++ saved_reason stop }
    ensures len { array_vec_len line.new ≤ array_vec_len line.old + 40 }
{
    match stop {
        SavedStop::Memory => {}
        SavedStop::BadLine { line: number } => push_number(line, "line ", number),
        SavedStop::BadState { line: number } => push_number(line, "state ", number),
        SavedStop::Unended { line: number } => push_number(line, "unended ", number),
    }
}

fn push_reason(line: &mut Line, refusal: &Refusal)
    requires { array_vec_len line.old ≤ 20 }
    ensures items { line.new.items ≡ line.old.items ++ reason_of refusal.now }
    ensures len { array_vec_len line.new ≤ array_vec_len line.old + 68 }
{
    match refusal {
        Refusal::TooLong => push_text(line, "too long"),
        Refusal::Genome(stop) => push_genome_reason(line, *stop),
        Refusal::Config(stop) => push_config_reason(line, stop),
        Refusal::Log(stop) => push_log_reason(line, *stop),
        Refusal::Saved(stop) => push_saved_reason(line, *stop),
        Refusal::Cell(cell) => push_number(line, "cell ", u64::from(*cell)),
        Refusal::Cells(cells) => push_number(line, "cells ", u64::from(*cells)),
        Refusal::Updates(updates) => push_number(line, "updates ", *updates),
    }
}

/// The fault line of a call that isn't done.
pub fn line_of(error: &CallError) -> Line
    ensures { result.items ≡ fault_line error.now }
{
    let mut line = Line::new();
    match error {
        CallError::BadWords => push_text(&mut line, "avida: bad words\n"),
        CallError::BadInput(refusal) => {
            push_text(&mut line, "avida: bad input: ");
            push_reason(&mut line, refusal);
            push_text(&mut line, "\n");
        }
        CallError::ReadFault => push_text(&mut line, "avida: read fault\n"),
        CallError::WriteFault => push_text(&mut line, "avida: write fault\n"),
        CallError::Memory => push_text(&mut line, "avida: no memory\n"),
    }
    line
}
