//! Access control lists of segments (Bensoussan, Clingen and Daley 1972): what each principal may do.
//!
//! A list lies in one value and takes no memory.
#![tactic(auto)]

ghost use Rattle.std.specs.Prelude.{◌≡◌, ◌∷◌, [], ◌↔◌, Some, IsOk, IsTrue, OnOk, OnErr, option_map};
ghost use Rattle.std.specs.List.{position};
ghost use Rattle.tree_model.specs.Access.{access_of, mode_at, with_row, takes_row, is_part, names_just};
ghost use Rattle.mnames.specs.declared.modes.Mode.TheVariants as modes;

use arrayvec::ArrayVec;
use mnames::{Label, Mode, Row, Who};
use std::marker::Model;

/// The most rows of a list (own).
const ROWS: usize = 16;

/// The row isn't in the list, and the list has 16 rows.
#[derive(Clone, Copy, Debug, PartialEq, Eq)]
pub struct AclFull;

/// What a row of a list allows whom.
#[derive(Drop)]
struct Grant {
    row: Row,
    mode: Mode,
}

impl Model for Grant {
    ghost use Rattle.tree_model.specs.Access.{Row};

    ghost Value = { Row };

    ghost view = { λ g. record { person = g.row.person; project = g.row.project; mode = g.mode } };
}

/// What fills the places without a row: any person on any project may do nothing.
impl Default for Grant {
    fn default() -> Self {
        let row = Row {
            person: None,
            project: None,
        };
        Grant {
            row,
            mode: Mode::Null,
        }
    }
}

impl Grant {
    /// Whether the row names just these parts, where `None` is any.
    fn names_just(&self, person: Option<&Label>, project: Option<&Label>) -> bool
        ensures { result ≡ names_just (option_map (λ l. l.now) person.entry) (option_map (λ l. l.now) project.entry)
            self.now }
    {
        is_part(person, &self.row.person) && is_part(project, &self.row.project)
    }
}

/// Whether a part of a row is this one, where `None` is any.
fn is_part(wanted: Option<&Label>, part: &Option<Label>) -> bool
    ensures { result ≡ is_part (option_map (λ l. l.now) wanted.entry) part.now }
{
    match (wanted, part) {
        (None, None) => true,
        (Some(wanted), Some(label)) => wanted == label,
        _ => false,
    }
}

/// An access control list of a segment: at most 16 rows, each with whom it names and what it allows
/// them. A contract sees the list of rows, in the order in which they came.
#[derive(Drop)]
pub struct Acl {
    rows: ArrayVec<Grant, ROWS>,
}

impl Model for Acl {
    ghost use Rattle.std.specs.Prelude.{List};
    ghost use Rattle.tree_model.specs.Access.{Row};

    ghost Value = { List Row };

    ghost view = { λ a. a.rows.items };
}

impl Acl {
    /// The list of a new segment: its maker, by person and project, may read and write.
    pub fn of(who: Who) -> Acl
        ensures { result ≡ record { person = Some who.person; project = Some who.project; mode = modes.Both } ∷ [] }
    {
        let mut rows = ArrayVec::new();
        rows.push(Grant {
            row: Row::of(who),
            mode: Mode::Both,
        });
        Acl { rows }
    }

    /// The list without a row. Directories have it.
    pub fn none() -> Acl
        ensures { result ≡ [] }
    {
        Acl {
            rows: ArrayVec::new(),
        }
    }

    /// Whether `set` of this row would answer Ok: the row is in the list, or fewer than 16 are.
    #[tactic(auto, using(crate::proofs::RowLaws::place_tells, std::proofs::lemmas::Grind::common_steps))]
    pub fn takes(&self, row: &Row) -> bool
        ensures { result ≡ takes_row row.now.person row.now.project self.now }
    {
        self.place(row).is_some() || !self.rows.is_full()
    }

    /// Sets what a row allows: in its place where it is in the list, else at the end. It looks at each
    /// row once, and takes no memory.
    ///
    /// # Errors
    /// `AclFull` exactly where the row isn't in the list and 16 rows are; then nothing is changed.
    #[tactic(auto, using(crate::proofs::RowLaws::set_steps, std::proofs::lemmas::Grind::common_steps))]
    pub fn set(&mut self, row: Row, mode: Mode) -> Result<(), AclFull>
        ensures ok { OnOk result (self.new ≡ with_row (record
            { person = row.person; project = row.project; mode = mode }) self.old) }
        ensures err { OnErr result (self.new ≡ self.old) }
        ensures full { IsOk result ↔ IsTrue (takes_row row.person row.project self.old) }
    {
        match self.place(&row) {
            Some(place) => {
                self.rows[place] = Grant { row, mode };
                Ok(())
            }
            None => self.rows.try_push(Grant { row, mode }).map_err(|_| AclFull),
        }
    }

    /// What a principal may do: by the row of the person on the project, else that of the person on any
    /// project, else that of anyone on the project, else that of anyone at all, else nothing. It goes
    /// through the rows at most four times, and takes no memory.
    #[tactic(auto, unfolding(tree_model::specs::Access::access_of))]
    pub fn access_of(&self, who: &Who) -> Mode
        ensures { result ≡ access_of who.now self.now }
    {
        let person = Some(&who.person);
        let project = Some(&who.project);
        if let Some(mode) = self.mode_at(person, project) {
            return mode;
        }
        if let Some(mode) = self.mode_at(person, None) {
            return mode;
        }
        if let Some(mode) = self.mode_at(None, project) {
            return mode;
        }
        self.mode_at(None, None).unwrap_or(Mode::Null)
    }

    /// Where the row stands.
    fn place(&self, row: &Row) -> Option<usize>
        ensures { result ≡ position (names_just row.now.person row.now.project) self.now }
    {
        self.rows.as_slice().iter().position(|grant| grant.names_just(
            row.person.as_ref(),
            row.project.as_ref(),
        ))
    }

    /// What the row with just these parts allows, where `None` is any.
    #[tactic(auto, using(crate::proofs::RowLaws::mode_at_steps, std::proofs::lemmas::Grind::common_steps))]
    fn mode_at(&self, person: Option<&Label>, project: Option<&Label>) -> Option<Mode>
        ensures { result ≡ mode_at (option_map (λ l. l.now) person.entry) (option_map (λ l. l.now) project.entry)
            self.now }
    {
        for grant in self.rows.as_slice() {
            if grant.names_just(person, project) {
                return Some(grant.mode);
            }
        }
        None
    }
}
