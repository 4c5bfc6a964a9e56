ghost use Rattle.std.specs.Prelude.{◌≡◌};
ghost use Rattle.outcomes.specs.Tables.{place_in};

use std::marker::Model;

/// A text of some lines, each with its line feed. A contract sees its bytes.
#[derive(Drop)]
pub(crate) struct Text {
    bytes: Vec<u8>,
}

impl Model for Text {
    ghost use Rattle.std.specs.Prelude.{List, ℕ};

    ghost Value = { List ℕ };

    ghost view = { λ t. t.bytes.items };
}

impl Text {
    /// The text of these bytes.
    pub(crate) fn new(bytes: Vec<u8>) -> Text
        ensures { result ≡ bytes.items }
    {
        Text { bytes }
    }

    /// Its bytes.
    pub(crate) fn as_slice(&self) -> &[u8]
        ensures { result.now ≡ self.now }
    {
        &self.bytes
    }
}

/// The place of the first text that is this one.
pub(crate) fn place_in(texts: &[Text], text: &[u8]) -> Option<usize>
    ensures { result ≡ place_in texts.now text.now }
{
    texts.iter().position(|other| other.as_slice() == text)
}
