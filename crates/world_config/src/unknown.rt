// Keys that no row names.
ghost use Rattle.std.specs.Prelude.{◌≡◌, not, option_map, string_bytes};
ghost use Rattle.world_config.specs.Prelude.{find, table_view};
ghost use Rattle.std.specs.BTreeMap as tree;
ghost use Rattle.std.specs.String.{string_cmp};
ghost use Rattle.world_config.specs.Refusal.{is_known, least_unknown};

use crate::key::KEYS;
use toml::Table;

#[tactic(auto, unfolding(crate::specs::Refusal::is_known))]
fn is_known(text: &str) -> bool
    ensures { result ≡ is_known text.now }
{
    KEYS.iter().any(|key| key.name() == text)
}

/// The first in the order of the table, whose keys ascend.
fn first_unknown(table: &Table) -> Option<&String>
    ensures first { option_map (λ key. key.now) result
        ≡ find (λ key. not (is_known (string_bytes key))) (tree.keys table.now) }
    ensures ordered { tree.IsOrdered string_cmp table.now }
{
    table.keys().find(|key| !is_known(key.as_str()))
}

/// The least key that no row names.
pub(crate) fn least_unknown(table: &Table) -> Option<&String>
    ensures { option_map (λ key. string_bytes key.now) result ≡ least_unknown
        (table_view table.now) }
{
    first_unknown(table)
}
