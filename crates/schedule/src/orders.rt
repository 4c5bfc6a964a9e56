ghost use Rattle.std.specs.Prelude.{◌≡◌, ◌++◌, ◌∷◌, [], IfNone, IfSome, None, OnOk, map};
ghost use Rattle.text_model.specs.Lines.{fields_of};
ghost use Rattle.schedule.specs.Fields.{after_word, begins};

use no_memory::NoMemory;
use script::split_field;
use std::alloc::Global;
use std::marker::Model;

/// What follows the first field of a text, where that field is this one.
fn after_field<'a>(text: &'a [u8], word: &[u8]) -> Option<&'a [u8]>
    ensures some { IfSome result (λ rest. fields_of text.now ≡ word.now ∷ fields_of rest.now) }
    ensures none { IfNone result (after_word word.now (fields_of text.now) ≡ None) }
{
    let (field, rest) = split_field(text);
    if field.is_empty() || field != word {
        None
    } else {
        Some(rest)
    }
}

/// Whether a text begins with some fields.
fn begin_with(fields: &[Vec<u8>], text: &[u8]) -> bool
    ensures { result ≡ begins (map (λ field. field.items) fields.now) (fields_of text.now) }
{
    let mut rest = text;
    for field in fields {
        match after_field(rest, field) {
            Some(after) => rest = after,
            None => return false,
        }
    }
    true
}

/// The fields with which an entry of a book begins. A contract sees the list of their bytes.
#[derive(Drop)]
pub struct Opening {
    fields: Vec<Vec<u8>>,
}

impl Model for Opening {
    ghost use Rattle.std.specs.Prelude.{List, ℕ, map};

    ghost Value = { List (List ℕ) };

    ghost view = { λ o. map (λ field. field.items) o.fields.items };
}

impl Opening {
    /// No fields.
    pub(crate) fn new(alloc: Global) -> Opening
        ensures { result ≡ [] }
    {
        Opening {
            fields: Vec::new(alloc),
        }
    }

    /// Adds a field. A refusal may leave it out.
    pub(crate) fn push(&mut self, alloc: Global, field: &[u8]) -> Result<(), NoMemory>
        ensures { OnOk result (self.new ≡ self.old ++ field.now ∷ []) }
    {
        let mut copy = Vec::new(alloc);
        copy.extend_from_slice(field)?;
        self.fields.push(copy)?;
        Ok(())
    }

    /// Whether a text begins with them, field by field. (Source: own.)
    pub fn begin(&self, text: &[u8]) -> bool
        ensures { result ≡ begins self.now (fields_of text.now) }
    {
        begin_with(&self.fields, text)
    }
}

/// What a line of a schedule asks for.
#[derive(Drop)]
pub enum Order {
    /// `step C [N]`: processor C makes so many steps, one where no number is given.
    Step { processor: u32, times: u32 },
    /// `until C TEXT`: processor C makes steps until an entry that one of them appends begins so, field by field.
    Until { processor: u32, text: Opening },
    /// `round [N]`: each processor makes a step, in order, and so again, so many times in all.
    Round { times: u32 },
    /// `draw SEED N`: so many processors, drawn from the seed, make a step each.
    Draw { seed: u32, times: u32 },
}

/// A line of a schedule.
#[derive(Drop)]
pub struct Line {
    /// Its number, counted from 1 at the first line of the script.
    pub number: u32,
    /// What it asks for.
    pub order: Order,
}
