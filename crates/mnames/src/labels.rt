ghost use Rattle.std.specs.Prelude.{◌≡◌, Some, None, if◌then◌else◌, nat_eq};
ghost use Rattle.std.specs.List.{list_all};
ghost use Rattle.std.specs.Cmp.Lexicographic.{pointwise, nat_list_eq_equiv};
ghost use Rattle.std.specs.Cmp.{partial_equiv_from_equiv};
ghost use Rattle.mnames.specs.Names.{is_label, is_label_byte, IsLabel};
ghost use Rattle.mnames.specs.Principals.{default_project};

use crate::texts::{NAME_BYTES, ShortText};
use std::fmt;
use std::marker::Model;

/// A part of a principal, a person or a project (Organick 1972): 1 to 32 ASCII letters, digits and `_`
/// (own). Case counts. It is kept in the value itself, and a contract sees the bytes.
#[derive(Debug, Drop)]
pub struct Label {
    text: ShortText,
}

impl Model for Label {
    ghost use Rattle.std.specs.Prelude.{List, ℕ};
    ghost use Rattle.mnames.specs.Names.{IsLabel};

    ghost Value = { List ℕ };

    ghost view = { λ l. l.text };

    ghost invariant = { λ l. IsLabel l.text };
}

/// Whether a byte may stand in a label.
fn may_stand(byte: u8) -> bool
    ensures { result ≡ is_label_byte byte }
{
    byte.is_ascii_alphanumeric() || byte == b'_'
}

/// Whether each byte of the text may.
fn all_may_stand(text: &[u8]) -> bool
    ensures { result ≡ list_all is_label_byte text.now }
{
    text.iter().all(|byte| may_stand(*byte))
}

/// Whether the text is a label.
#[tactic(auto, using(crate::proofs::ShortTexts::label_test, std::proofs::lemmas::Grind::common_steps))]
fn is_label(text: &[u8]) -> bool
    ensures { result ≡ is_label text.now }
{
    match text.len() {
        1..=NAME_BYTES => all_may_stand(text),
        _ => false,
    }
}

/// The label that the text is. `None` exactly where it isn't one.
#[tactic(auto, using(crate::proofs::ShortTexts::label_is_short, std::proofs::lemmas::Grind::common_steps))]
pub fn read_label(text: &[u8]) -> Option<Label>
    ensures { result ≡ (if is_label text.now then Some text.now else None) }
{
    if !is_label(text) {
        return None;
    }
    Some(Label {
        text: ShortText::of(text),
    })
}

impl Label {
    /// The project of a person who names none, `Default` (own).
    pub fn default_project() -> Label
        ensures { result ≡ default_project }
    {
        Label {
            text: ShortText::of(b"Default"),
        }
    }

    /// The same label. It takes no memory: 33 bytes are copied.
    pub fn copied(&self) -> Label
        ensures { result ≡ self.now }
    {
        Label {
            text: self.text.copied(),
        }
    }

    /// The text of the label.
    pub fn as_str(&self) -> &str
        ensures text { result.now ≡ self.now }
        ensures label { IsLabel self.now }
    {
        self.text.as_str()
    }
}

impl PartialEq for Label {
    ghost eq = { pointwise nat_eq };

    ghost laws = { partial_equiv_from_equiv nat_list_eq_equiv };

    fn eq(&self, other: &Self) -> bool {
        self.text.as_bytes() == other.text.as_bytes()
    }
}

impl Eq for Label {
    ghost laws = { nat_list_eq_equiv };
}

impl fmt::Display for Label {
    ghost output = { λ l. Some l };

    fn fmt<W: fmt::Write>(&self, f: &mut fmt::Formatter<W>) -> fmt::Result {
        write!(f, "{}", self.text.as_str())
    }
}
