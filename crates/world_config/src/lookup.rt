// The values of a table at its keys.
ghost use Rattle.std.specs.Prelude.{◌≡◌, ℕ, pos, None, Some, IfOk, IfErr, OnOk, option_map};
ghost use Rattle.world_config.specs.Prelude.{array, boolean, get_member, integer, no_items, string, items_view, table_view, view, IsWithin};
ghost use Rattle.world_config.specs.KeyTable.{key_name, number, flag, genome, events};
ghost use Rattle.world_config.specs.Lookup.{value_or};
ghost use Rattle.world_config.specs.Refusal.{refusal_of, unless_within};

use crate::key::Key;
use crate::limits::GREATEST_SEED;
use crate::stop::ConfigStop;
use toml::{Table, Value};

/// The value at a name.
pub(crate) fn found<'a>(table: &'a Table, name: &str) -> Option<&'a Value>
    ensures { option_map (λ value. view value.now) result ≡ get_member name.now
        (table_view table.now) }
{
    table.get(name)
}

/// The value at a key.
fn at<'a>(table: &'a Table, key: Key) -> Option<&'a Value>
    ensures { option_map (λ value. view value.now) result ≡ get_member (key_name key)
        (table_view table.now) }
{
    found(table, key.name())
}

/// The number, where it is within the bounds.
pub(crate) fn bounded(key: Key, value: i64, least: u32, greatest: u64) -> Result<u64, ConfigStop>
    ensures value { IfOk result (λ n. value ≡ pos n) }
    ensures within { IfOk result (IsWithin least greatest) }
    ensures accepted { OnOk result (unless_within key least greatest value ≡ None) }
    ensures refused { IfErr result (λ stop. unless_within key least greatest value ≡ Some stop) }
{
    if 0 <= value {
        let n = value as u64;
        if u64::from(least) <= n && n <= greatest {
            return Ok(n);
        }
    }
    Err(ConfigStop::OutOfRange { key, value })
}

fn integer_or(table: &Table, key: Key, default: u32) -> Result<i64, ConfigStop>
    ensures value { IfOk result (λ z. value_or key (integer (pos default)) (table_view table.now)
        ≡ integer z) }
    ensures refused { IfErr result (λ stop. (least greatest : ℕ)
        → refusal_of (number least greatest) key (value_or key (integer (pos default))
        (table_view table.now)) ≡ Some stop) }
{
    let Some(value) = at(table, key) else {
        return Ok(i64::from(default));
    };
    value.as_integer().ok_or(ConfigStop::WrongKind { key })
}

/// The number at a key, or the default, within the bounds.
pub(crate) fn number(
    table: &Table,
    key: Key,
    default: u32,
    least: u32,
    greatest: u32,
) -> Result<u32, ConfigStop>
    ensures value { IfOk result (λ n. value_or key (integer (pos default)) (table_view table.now)
        ≡ integer (pos n)) }
    ensures within { IfOk result (IsWithin least greatest) }
    ensures refused { IfErr result (λ stop.
        refusal_of (number least greatest) key (value_or key (integer (pos default))
        (table_view table.now)) ≡ Some stop) }
{
    let value = integer_or(table, key, default)?;
    Ok(bounded(key, value, least, u64::from(greatest))? as u32)
}

/// The seed, or the default: the one number that may have more than 32 bits.
pub(crate) fn seed(table: &Table) -> Result<u64, ConfigStop>
    ensures value { IfOk result (λ n. value_or Key.Seed (integer (pos 1)) (table_view table.now)
        ≡ integer (pos n)) }
    ensures within { IfOk result (IsWithin 0 GREATEST_SEED) }
    ensures refused { IfErr result (λ stop. refusal_of (number 0 GREATEST_SEED) Key.Seed
        (value_or Key.Seed (integer (pos 1)) (table_view table.now)) ≡ Some stop) }
{
    let value = integer_or(table, Key::Seed, 1)?;
    bounded(Key::Seed, value, 0, GREATEST_SEED)
}

/// The truth at a key, or the default.
pub(crate) fn flag(table: &Table, key: Key, default: bool) -> Result<bool, ConfigStop>
    ensures value { IfOk result (λ b. value_or key (boolean default) (table_view table.now)
        ≡ boolean b) }
    ensures refused { IfErr result (λ stop.
        refusal_of flag key (value_or key (boolean default) (table_view table.now)) ≡ Some stop) }
{
    let Some(value) = at(table, key) else {
        return Ok(default);
    };
    value.as_bool().ok_or(ConfigStop::WrongKind { key })
}

/// The text at a key, or the default.
pub(crate) fn text<'a>(table: &'a Table, key: Key, default: &'a str) -> Result<&'a str, ConfigStop>
    ensures value { IfOk result (λ s. value_or key (string default.entry.now) (table_view table.now)
        ≡ string s.now) }
    ensures refused { IfErr result (λ stop. (least greatest : ℕ)
        → refusal_of (genome least greatest) key (value_or key (string default.entry.now)
        (table_view table.now)) ≡ Some stop) }
{
    let Some(value) = at(table, key) else {
        return Ok(default);
    };
    value.as_str().ok_or(ConfigStop::WrongKind { key })
}

/// The members of the array at a key, or none.
pub(crate) fn members(table: &Table, key: Key) -> Result<&[Value], ConfigStop>
    ensures value { IfOk result (λ s. value_or key (array no_items) (table_view table.now) ≡ array
        (items_view s.now)) }
    ensures refused { IfErr result (λ stop. (most : ℕ)
        → refusal_of (events most) key (value_or key (array no_items) (table_view table.now))
        ≡ Some stop) }
{
    match at(table, key) {
        None => Ok(&[]),
        Some(value) => match value.as_array() {
            Some(array) => Ok(array.as_slice()),
            None => Err(ConfigStop::WrongKind { key }),
        },
    }
}
