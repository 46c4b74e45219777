// The text of a key that no row names.
ghost use Rattle.std.specs.Prelude.{◌≡◌, ℕ, List, string_bytes, IfOk};

use std::alloc::AllocError;
use std::marker::Model;

/// A key as a document writes it.
#[derive(Drop)]
pub struct KeyText {
    text: String,
}

impl Model for KeyText {
    ghost use Rattle.std.specs.Prelude.{ℕ, List, string_bytes};

    ghost Value = { List ℕ };

    ghost view = { λ key. string_bytes key.text };
}

impl KeyText {
    pub(crate) fn copy_of(text: &String) -> Result<KeyText, AllocError>
        ensures { IfOk result (λ key. key ≡ string_bytes text.now) }
    {
        Ok(KeyText {
            text: text.clone()?,
        })
    }

    /// The bytes of the key.
    pub fn bytes(&self) -> &[u8]
        ensures { result.now ≡ self.now }
    {
        self.text.as_bytes()
    }
}
