ghost use Rattle.std.specs.Prelude.{◌≡◌, ◌<◌, ◌≤◌, ℕ, List, [], ◌∷◌, ◌++◌, length, slice_index, Some, Ok, IfSome};
ghost use Rattle.std.specs.Prelude.{IfNone, IfOk, IfErr, OnOk, string_bytes};
ghost use Rattle.mnames.specs.Names.{path_text, IsPath, IsLongestStart};
ghost use Rattle.mnames.specs.Reading.{IsNoPath};

use crate::NoMemory;
use crate::names::{Name, next_name};
use arrayvec::ArrayVec;
use std::alloc::Global;
use std::fmt;
use std::marker::Model;

/// The most names of a path: eight directories and a segment (own).
pub const PATH_NAMES: usize = 9;

/// A pathname, from the root of the directory tree down (Bensoussan, Clingen and Daley 1972): 0 to 9
/// entry names, none for the root itself. It is kept in the value itself, and a contract sees the list
/// of its names.
#[derive(Drop)]
pub struct Path {
    names: ArrayVec<Name, PATH_NAMES>,
}

impl Model for Path {
    ghost use Rattle.std.specs.Prelude.{List, ℕ};
    ghost use Rattle.mnames.specs.Names.{IsPath};

    ghost Value = { List (List ℕ) };

    ghost view = { λ p. p.names.items };

    ghost invariant = { λ p. IsPath p.names.items };
}

impl Path {
    /// The path of a branch of the root: that one name.
    pub fn below_root(name: Name) -> Path
        ensures { result ≡ name ∷ [] }
    {
        let _ = name.as_str();
        let mut names = ArrayVec::new();
        names.push(name);
        Path { names }
    }

    /// The names, from the root down.
    pub fn names(&self) -> &[Name]
        ensures names { result.now ≡ self.now }
        ensures path { IsPath self.now }
        ensures most { length self.now ≤ PATH_NAMES }
    {
        self.names.as_slice()
    }

    /// The names of the directory above, from the root down, and the name in it. `None` exactly where the
    /// path is the root's. Nothing is copied.
    pub fn parts(&self) -> Option<(&[Name], &Name)>
        ensures parts { IfSome result (λ p. self.now ≡ p.0.now ++ p.1.now ∷ []) }
        ensures root { IfNone result (self.now ≡ []) }
        ensures path { IsPath self.now }
    {
        let (name, above) = self.names.as_slice().split_last()?;
        Some((above, name))
    }

    /// The path of the directory above, and the name in it. `None` exactly where the path is the root's.
    /// It takes no memory: at most eight names are copied.
    #[tactic(auto, using(crate::proofs::PathGrammar::front_is_path, std::proofs::lemmas::Grind::common_steps))]
    pub fn split_last(&self) -> Option<(Path, &Name)>
        ensures parts { IfSome result (λ p. self.now ≡ p.0 ++ p.1.now ∷ []) }
        ensures root { IfNone result (self.now ≡ []) }
    {
        let (above, name) = self.parts()?;
        Some((path_of_names(above), name))
    }
}

impl Path {
    /// Reads a text into the path of the root, which is the path of the text from then on: `read_path` in a place that
    /// is there already, so that its 300 bytes aren't moved.
    ///
    /// # Errors
    /// `BadPath` exactly where the text is no path. Then the path may have the names of its front.
    #[tactic(auto, using(crate::proofs::PathGrammar::unsigned_is_no_path, std::proofs::lemmas::Grind::common_steps))]
    pub fn read(&mut self, text: &[u8]) -> Result<(), BadPath>
        requires root { self.old ≡ [] }
        ensures path { OnOk result ((text.now ≡ path_text self.new) × IsPath self.new) }
        ensures none { IfErr result (λ e. IsNoPath text.now e.place) }
    {
        if text.is_empty() || text[0] != b'>' {
            return Err(BadPath { place: 0 });
        }
        if text.len() == 1 {
            return Ok(());
        }
        read_names(&mut self.names, text)
    }
}

/// The path of these names.
#[tactic(auto, using(std::proofs::lemmas::List::take_more, std::proofs::lemmas::Grind::common_steps))]
fn path_of_names(names: &[Name]) -> Path
    requires { IsPath names.now }
    ensures { result ≡ names.now }
{
    let mut kept = ArrayVec::new();
    for name in names {
        kept.push(name.copied());
    }
    Path { names: kept }
}

/// The path of the root.
impl Default for Path {
    ghost is_default = { λ p. p ≡ [] };

    fn default() -> Self {
        Path {
            names: ArrayVec::new(),
        }
    }
}

/// Each name with `>` before it; the root is `>` alone.
impl fmt::Display for Path {
    ghost output = { λ p. Some (path_text p) };

    fn fmt<W: fmt::Write>(&self, f: &mut fmt::Formatter<W>) -> fmt::Result {
        let names = self.names.as_slice();
        if names.is_empty() {
            return write!(f, ">");
        }
        for name in names {
            write!(f, ">{name}")?;
        }
        Ok(())
    }
}

/// A text that is no path.
#[derive(Clone, Copy, Debug, PartialEq, Eq)]
pub struct BadPath {
    /// The length in bytes of the longest front of the text with which some path begins.
    pub place: u32,
}

/// Reads the names of a text that begins with `>` and has more bytes. The error is the length of the longest front
/// with which some path begins.
#[tactic(auto, using(crate::proofs::PathGrammar::path_taken, std::proofs::lemmas::Grind::common_steps))]
fn read_names(names: &mut ArrayVec<Name, PATH_NAMES>, text: &[u8]) -> Result<(), BadPath>
    requires none { names.old.items ≡ [] }
    requires sign { slice_index text.now 0 ≡ 62 }
    requires more { 1 < length text.now }
    ensures names { IsPath names.new.items }
    ensures ok { OnOk result (text.now ≡ path_text names.new.items) }
    ensures err { IfErr result (λ e. IsNoPath text.now e.place) }
{
    let mut rest = text;
    while let Some((_, after)) = rest.split_first() {
        if names.is_full() {
            return Err(bad_path(text.len() - rest.len()));
        }
        match next_name(after) {
            Ok((name, behind)) => {
                names.push(name);
                rest = behind;
            }
            Err(length) => return Err(bad_path(text.len() - after.len() + length)),
        }
    }
    Ok(())
}

/// The fault at a place.
fn bad_path(place: usize) -> BadPath
    requires { place ≤ 330 }
    ensures { result.place ≡ place }
{
    BadPath {
        place: place as u32,
    }
}

/// The path that the text is: `>` for the root, else each name with `>` before it. It goes through the
/// text once, and takes no memory.
///
/// # Errors
/// `BadPath` exactly where the text is no path.
pub fn read_path(text: &[u8]) -> Result<Path, BadPath>
    ensures path { IfOk result (λ p. text.now ≡ path_text p) }
    // each path is read from its text
    ensures again { (p : List (List ℕ)) → IsPath p → text.now ≡ path_text p → result ≡ Ok p }
    ensures place { IfErr result (λ e. IsLongestStart text.now e.place) }
{
    let mut path = Path::default();
    match path.read(text) {
        Ok(()) => Ok(path),
        Err(fault) => Err(fault),
    }
}

/// The text of a path, of at most 297 bytes, in one block of memory.
pub fn path_text(alloc: Global, p: &Path) -> Result<String, NoMemory>
    ensures { IfOk result (λ text. string_bytes text ≡ path_text p.now) }
{
    Ok(format!(in alloc; "{p}")?)
}
