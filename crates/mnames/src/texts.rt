ghost use Rattle.std.specs.Prelude.{◌≡◌, Some};
ghost use Rattle.std.specs.Str.{IsAscii};
ghost use Rattle.mnames.specs.Names.{IsShort};

use std::marker::Model;
use std::{fmt, str};

/// The most bytes that a name or a principal has (Bensoussan, Clingen and Daley 1972).
pub const NAME_BYTES: usize = 32;

/// A text of at most 32 ASCII characters, kept in the value itself. It takes 33 bytes, so that a path of
/// nine names takes little more than 300, and a contract sees the characters.
#[derive(Drop)]
pub(crate) struct ShortText {
    bytes: [u8; NAME_BYTES],
    length: u8,
}

impl Model for ShortText {
    ghost use Rattle.std.specs.Prelude.{ℕ, List, ◌≤◌, take};
    ghost use Rattle.std.specs.Str.{IsAscii};

    ghost Value = { List ℕ };

    ghost view = { λ t. take t.length t.bytes };

    ghost invariant = { λ t. (t.length ≤ 32) × IsAscii (take t.length t.bytes) };
}

impl ShortText {
    /// The text that the bytes are.
    pub(crate) fn of(text: &[u8]) -> ShortText
        requires { IsShort text.now }
        ensures { result ≡ text.now }
    {
        let mut bytes = [0; NAME_BYTES];
        bytes[..text.len()].copy_from_slice(text);
        ShortText {
            bytes,
            length: text.len() as u8,
        }
    }

    /// The same text.
    pub(crate) fn copied(&self) -> ShortText
        ensures { result ≡ self.now }
    {
        ShortText {
            bytes: self.bytes,
            length: self.length,
        }
    }

    /// The characters as bytes.
    pub(crate) fn as_bytes(&self) -> &[u8]
        ensures text { result.now ≡ self.now }
        ensures ascii { IsAscii self.now }
    {
        &self.bytes[..usize::from(self.length)]
    }

    /// The characters.
    #[tactic(auto, using(crate::proofs::ShortTexts::ascii_is_utf8, std::proofs::lemmas::Grind::common_steps))]
    pub(crate) fn as_str(&self) -> &str
        ensures { result.now ≡ self.now }
    {
        // The bytes are ASCII, and so they are UTF-8.
        unsafe { str::from_utf8_unchecked(self.as_bytes()) }
    }
}

impl fmt::Debug for ShortText {
    fn fmt<W: fmt::Write>(&self, f: &mut fmt::Formatter<W>) -> fmt::Result {
        write!(f, "{:?}", self.as_str())
    }
}
