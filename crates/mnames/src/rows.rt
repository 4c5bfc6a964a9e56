ghost use Rattle.std.specs.Prelude.{◌≡◌, Some, None};
ghost use Rattle.mnames.specs.Principals.{IsRow, row_of, row_text, part_of, row_alone};

use crate::labels::{Label, read_label};
use crate::principals::{Who, around_dot, write_parts};
use std::fmt;

/// Whom a row of an access control list names (Organick 1972): a person and a project, where `None`
/// stands for any.
#[derive(Debug, Drop, PartialEq, Eq)]
pub struct Row {
    pub person: Option<Label>,
    pub project: Option<Label>,
}

impl Row {
    /// The row with both parts of a principal.
    pub fn of(who: Who) -> Row
        ensures { result ≡ record { person = Some who.person; project = Some who.project } }
    {
        Row {
            person: Some(who.person),
            project: Some(who.project),
        }
    }

    /// The same row. It takes no memory.
    pub fn copied(&self) -> Row
        ensures { result ≡ self.now }
    {
        Row {
            person: copied(&self.person),
            project: copied(&self.project),
        }
    }
}

/// The same part.
fn copied(part: &Option<Label>) -> Option<Label>
    ensures { result ≡ part.now }
{
    part.as_ref().map(|label| label.copied())
}

/// The part of a row that the text is: `*` for any, or a label.
#[tactic(auto, unfolding(crate::specs::Principals::part_of))]
fn read_part(text: &[u8]) -> Option<Option<Label>>
    ensures { result ≡ part_of text.now }
{
    if text == b"*".as_slice() {
        return Some(None);
    }
    read_label(text).map(Some)
}

/// The row of one part: any person on any project, or a person on the project `Default`.
fn row_alone(person: Option<Label>) -> Row
    ensures { result ≡ row_alone person }
{
    let project = person.as_ref().map(|_| Label::default_project());
    Row { person, project }
}

/// The row of a text.
#[tactic(auto, using(crate::proofs::PrincipalTexts::parts_missing), unfolding(crate::specs::Principals::row_of))]
fn row_of(text: &[u8]) -> Option<Row>
    ensures { result ≡ row_of text.now }
{
    if let Some(person) = read_part(text) {
        return Some(row_alone(person));
    }
    let (person, project) = around_dot(text)?;
    Some(Row {
        person: read_part(person)?,
        project: read_part(project)?,
    })
}

/// The row that the text is (own): `Person.Project` with `*` in either part for any; a person alone,
/// whose project is `Default`; or `*` alone, for `*.*`. `None` exactly where it is none of these. It
/// takes no memory.
#[tactic(auto, using(crate::proofs::PrincipalTexts::row_again))]
pub fn read_row(text: &[u8]) -> Option<Row>
    ensures row { result ≡ row_of text.now }
    // the canonical text of a row is read as that row
    ensures again { (row : Row) → IsRow row → text.now ≡ row_text row → result ≡ Some row }
{
    row_of(text)
}

/// The canonical text: that of the principal where both parts are named, `*` for any person on any
/// project, else both parts with a dot between them.
impl fmt::Display for Row {
    ghost output = { λ row. Some (row_text row) };

    #[tactic(auto, unfolding(crate::specs::Principals::row_text))]
    fn fmt<W: fmt::Write>(&self, f: &mut fmt::Formatter<W>) -> fmt::Result {
        match (&self.person, &self.project) {
            (None, None) => write!(f, "*"),
            (None, Some(project)) => write!(f, "*.{project}"),
            (Some(person), None) => write!(f, "{person}.*"),
            (Some(person), Some(project)) => write_parts(f, person, project),
        }
    }
}
