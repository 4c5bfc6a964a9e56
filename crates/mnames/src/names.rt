ghost use Rattle.std.specs.Prelude.{◌≡◌, ◌++◌, Some, None, IfOk, IfErr, if◌then◌else◌, nat_eq, codes};
ghost use Rattle.std.specs.List.{list_all};
ghost use Rattle.std.specs.Cmp.Lexicographic.{pointwise, nat_list_eq_equiv};
ghost use Rattle.std.specs.Cmp.{partial_equiv_from_equiv};
ghost use Rattle.mnames.specs.Names.{is_name, is_name_byte, IsName};
ghost use Rattle.mnames.specs.Reading.{IsAtSign, IsRun, IsStuck};

use crate::texts::{NAME_BYTES, ShortText};
use std::fmt;
use std::marker::Model;

/// An entry name of the directory tree: 1 to 32 characters (Bensoussan, Clingen and Daley 1972), which
/// are ASCII letters, digits, `_`, `.` and `-` (own). Case counts. It is kept in the value itself, and a
/// contract sees the bytes.
#[derive(Debug, Drop)]
pub struct Name {
    text: ShortText,
}

impl Model for Name {
    ghost use Rattle.std.specs.Prelude.{List, ℕ};
    ghost use Rattle.mnames.specs.Names.{IsName};

    ghost Value = { List ℕ };

    ghost view = { λ n. n.text };

    ghost invariant = { λ n. IsName n.text };
}

/// Which bytes may stand in an entry name, as bits, for 64 bytes in a word: `-`, `.` and the digits; then the letters
/// and `_`.
const MAY_STAND: [u64; 4] = [0x03ff_6000_0000_0000, 0x07ff_fffe_87ff_fffe, 0, 0];

/// Whether a byte may stand in an entry name.
fn may_stand(byte: u8) -> bool
    ensures { result ≡ is_name_byte byte }
{
    let word = MAY_STAND[usize::from(byte >> 6)];
    (word >> (byte & 63)) & 1 == 1
}

/// Whether each byte of the text may.
fn all_may_stand(text: &[u8]) -> bool
    ensures { result ≡ list_all is_name_byte text.now }
{
    text.iter().all(|byte| may_stand(*byte))
}

/// Whether the text is an entry name.
#[tactic(auto, using(crate::proofs::ShortTexts::name_test, std::proofs::lemmas::Grind::common_steps))]
fn is_name(text: &[u8]) -> bool
    ensures { result ≡ is_name text.now }
{
    match text.len() {
        1..=NAME_BYTES => all_may_stand(text),
        _ => false,
    }
}

/// The entry name that the text is. `None` exactly where it isn't one.
#[tactic(auto, using(crate::proofs::ShortTexts::name_is_short, std::proofs::lemmas::Grind::common_steps))]
pub fn read_name(text: &[u8]) -> Option<Name>
    ensures { result ≡ (if is_name text.now then Some text.now else None) }
{
    if !is_name(text) {
        return None;
    }
    Some(Name {
        text: ShortText::of(text),
    })
}

/// How long the front of a text is that an entry name may have: up to the first byte that may not stand
/// in one, and at most 32 bytes.
#[tactic(auto, using(crate::proofs::PathGrammar::run_measured, std::proofs::lemmas::Grind::common_steps))]
fn run_length(text: &[u8]) -> usize
    ensures { IsRun text.now result }
{
    for (i, byte) in text.iter().enumerate() {
        if i == NAME_BYTES || !may_stand(*byte) {
            return i;
        }
    }
    text.len()
}

/// The entry name at the front of a text, up to its first `>` or its end, and what follows it. The error
/// is the length of the longest front with which such a name begins.
#[tactic(auto, using(crate::proofs::PathGrammar::name_ends, std::proofs::lemmas::Grind::common_steps))]
pub(crate) fn next_name(text: &[u8]) -> Result<(Name, &[u8]), usize>
    ensures name { IfOk result (λ n. IsName n.0) }
    ensures parts { IfOk result (λ n. text.now ≡ n.0 ++ n.1.now) }
    ensures sign { IfOk result (λ n. IsAtSign n.1.now) }
    ensures stuck { IfErr result (λ length. IsStuck text.now length) }
{
    let length = run_length(text);
    let (front, rest) = text.split_at(length);
    if !rest.is_empty() && rest[0] != b'>' {
        return Err(length);
    }
    if front.is_empty() {
        return Err(0);
    }
    let name = Name {
        text: ShortText::of(front),
    };
    Ok((name, rest))
}

impl Name {
    /// The same name. It takes no memory: 33 bytes are copied.
    pub fn copied(&self) -> Name
        ensures { result ≡ self.now }
    {
        Name {
            text: self.text.copied(),
        }
    }

    /// The text of the name.
    pub fn as_str(&self) -> &str
        ensures text { result.now ≡ self.now }
        ensures name { IsName self.now }
    {
        self.text.as_str()
    }
}

impl PartialEq for Name {
    ghost eq = { pointwise nat_eq };

    ghost laws = { partial_equiv_from_equiv nat_list_eq_equiv };

    fn eq(&self, other: &Self) -> bool {
        self.text.as_bytes() == other.text.as_bytes()
    }
}

impl Eq for Name {
    ghost laws = { nat_list_eq_equiv };
}

/// The name that the root of the tree bears, `root` (own).
impl Default for Name {
    ghost is_default = { λ n. n ≡ codes "root" };

    fn default() -> Self {
        Name {
            text: ShortText::of(b"root"),
        }
    }
}

impl fmt::Display for Name {
    ghost output = { λ n. Some n };

    fn fmt<W: fmt::Write>(&self, f: &mut fmt::Formatter<W>) -> fmt::Result {
        write!(f, "{}", self.text.as_str())
    }
}
