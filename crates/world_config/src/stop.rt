// Why a document is rejected.
ghost use Rattle.std.specs.Prelude.{◌≡◌};
ghost use Rattle.world_config.specs.declared.stop.ConfigStop.TheVariants as stop;

use crate::key::Key;
use crate::key_text::KeyText;
use avida_port::Memory;
use genome::GenomeStop;
use std::alloc::AllocError;

/// Why a document is rejected as a configuration.
#[derive(Drop)]
pub enum ConfigStop {
    /// Out of memory: an allocation failed.
    Memory,
    /// The bytes are no TOML document.
    BadToml,
    /// The document has a key that the table of keys lacks: the least such key in the order of
    /// bytes.
    UnknownKey { key: KeyText },
    /// The value is not of the key's kind.
    WrongKind { key: Key },
    /// The value is outside the key's bounds.
    OutOfRange { key: Key, value: i64 },
    /// The ancestor's text is not a genome by letters.
    BadAncestor { stop: GenomeStop },
    /// This member of `event`, counted from 1, is not a valid event.
    BadEvent { nth: u32 },
}

impl From<AllocError> for ConfigStop {
    ghost from_gives = { λ _ given. given ≡ stop.Memory };

    fn from(_e: AllocError) -> ConfigStop {
        ConfigStop::Memory
    }
}

impl From<Memory> for ConfigStop {
    ghost from_gives = { λ _ given. given ≡ stop.Memory };

    fn from(_e: Memory) -> ConfigStop {
        ConfigStop::Memory
    }
}
