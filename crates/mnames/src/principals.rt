ghost use Rattle.std.specs.Prelude.{◌≡◌, [], Some, IfSome, IfNone};
ghost use Rattle.std.specs.List.{position};
ghost use Rattle.std.specs.Fmt.{WritesOnOk};
ghost use Rattle.mnames.specs.Principals.{IsWho, who_of, who_text, parts_text, is_dot, before_dot, after_dot};

use crate::labels::{Label, read_label};
use std::fmt;

/// The principal for whom a process runs: a person, and the project that the person works on (Organick
/// 1972).
#[derive(Debug, Drop, PartialEq, Eq)]
pub struct Who {
    pub person: Label,
    pub project: Label,
}

impl Who {
    /// The same principal. It takes no memory.
    pub fn copied(&self) -> Who
        ensures { result ≡ self.now }
    {
        Who {
            person: self.person.copied(),
            project: self.project.copied(),
        }
    }
}

/// Where the first dot stands.
fn dot_in(text: &[u8]) -> Option<usize>
    ensures { result ≡ position is_dot text.now }
{
    text.iter().position(|byte| *byte == b'.')
}

/// The text before the first dot and the text after it. `None` exactly where there is no dot.
#[tactic(auto, using(crate::proofs::PrincipalTexts::dot_sought, std::proofs::lemmas::Grind::common_steps))]
pub(crate) fn around_dot(text: &[u8]) -> Option<(&[u8], &[u8])>
    ensures before { IfSome result (λ t. t.0.now ≡ before_dot text.now) }
    ensures after { IfSome result (λ t. t.1.now ≡ after_dot text.now) }
    ensures none { IfNone result (after_dot text.now ≡ []) }
{
    let dot = dot_in(text)?;
    Some((&text[..dot], &text[dot + 1..]))
}

/// The principal of a text.
#[tactic(auto, using(crate::proofs::PrincipalTexts::project_missing), unfolding(crate::specs::Principals::who_of))]
fn who_of(text: &[u8]) -> Option<Who>
    ensures { result ≡ who_of text.now }
{
    if let Some(person) = read_label(text) {
        let project = Label::default_project();
        return Some(Who { person, project });
    }
    let (person, project) = around_dot(text)?;
    Some(Who {
        person: read_label(person)?,
        project: read_label(project)?,
    })
}

/// The principal that the text is: `Person.Project`, or a person alone, whose project is `Default`
/// (own). `None` exactly where it is neither. It takes no memory, and looks at no byte past the 66th
/// more than once.
#[tactic(auto, using(crate::proofs::PrincipalTexts::who_again))]
pub fn read_who(text: &[u8]) -> Option<Who>
    ensures who { result ≡ who_of text.now }
    // the canonical text of a principal is read as that principal
    ensures again { (who : Who) → IsWho who → text.now ≡ who_text who → result ≡ Some who }
{
    who_of(text)
}

/// Writes both parts with a dot between them, or the first alone where the second is `Default`.
pub(crate) fn write_parts<W: fmt::Write>(
    f: &mut fmt::Formatter<W>,
    person: &Label,
    project: &Label,
) -> fmt::Result
    ensures { WritesOnOk W.write_str_gives f.old result (parts_text person.now project.now) f.new }
{
    if project.as_str() == "Default" {
        return write!(f, "{person}");
    }
    write!(f, "{person}.{project}")
}

/// The canonical text: the person alone where the project is `Default`, else `Person.Project`.
impl fmt::Display for Who {
    ghost output = { λ who. Some (who_text who) };

    #[tactic(auto, unfolding(crate::specs::Principals::who_text))]
    fn fmt<W: fmt::Write>(&self, f: &mut fmt::Formatter<W>) -> fmt::Result {
        write_parts(f, &self.person, &self.project)
    }
}
