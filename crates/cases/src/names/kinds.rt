use crate::names::paths::path_line;
use mnames::{Label, Row, read_label, read_name, read_row, read_who};
use no_memory::NoMemory;
use std::alloc::Global;

/// What a text is read as, if it is of this kind.
pub(crate) fn read_as(alloc: Global, kind: &str, text: &str) -> Result<String, NoMemory> {
    match kind {
        "names" => name_line(alloc, text),
        "labels" => label_line(alloc, text),
        "principals" => principal_line(alloc, text),
        "rows" => row_line(alloc, text),
        "paths" => path_line(alloc, text),
        _ => Ok(String::from_str(alloc, "no kind")?),
    }
}

/// An entry name.
fn name_line(alloc: Global, text: &str) -> Result<String, NoMemory> {
    let Some(name) = read_name(text.as_bytes()) else {
        return Ok(String::from_str(alloc, "none")?);
    };
    let written = format!(in alloc; "{name}")?;
    let again = read_name(written.as_bytes()) == Some(name.copied());
    Ok(format!(in alloc; "{written}, as a text {}, again {again}", name.as_str())?)
}

/// A person or a project.
fn label_line(alloc: Global, text: &str) -> Result<String, NoMemory> {
    let Some(label) = read_label(text.as_bytes()) else {
        return Ok(String::from_str(alloc, "none")?);
    };
    let written = format!(in alloc; "{label}")?;
    let again = read_label(written.as_bytes()) == Some(label.copied());
    Ok(format!(in alloc; "{written}, as a text {}, again {again}", label.as_str())?)
}

/// A principal, by its parts and as it is written, with its row.
fn principal_line(alloc: Global, text: &str) -> Result<String, NoMemory> {
    let Some(who) = read_who(text.as_bytes()) else {
        return Ok(String::from_str(alloc, "none")?);
    };
    let written = format!(in alloc; "{who}")?;
    let again = read_who(written.as_bytes()) == Some(who.copied());
    let own = read_row(written.as_bytes()) == Some(Row::of(who.copied()));
    let (person, project) = (who.person.as_str(), who.project.as_str());
    Ok(format!(in alloc; "{person} of {project}, written {written}, again {again}, its row {own}")?)
}

/// A part of a row, or `any`.
fn part_of(part: &Option<Label>) -> &str {
    match part {
        Some(label) => label.as_str(),
        None => "any",
    }
}

/// A row of an access control list, by its parts and as it is written.
fn row_line(alloc: Global, text: &str) -> Result<String, NoMemory> {
    let Some(row) = read_row(text.as_bytes()) else {
        return Ok(String::from_str(alloc, "none")?);
    };
    let written = format!(in alloc; "{row}")?;
    let again = read_row(written.as_bytes()) == Some(row.copied());
    let (person, project) = (part_of(&row.person), part_of(&row.project));
    Ok(format!(in alloc; "{person} of {project}, written {written}, again {again}")?)
}
