use no_memory::NoMemory;
use std::alloc::Global;

/// The number of the line that a piece of a change is of; 0 where it has none.
fn number_of(piece: &str) -> u32 {
    let (number, _) = piece.split_once('=').unwrap_or((piece, ""));
    number.parse().unwrap_or(0)
}

/// The piece of a change that is of a line, if there is one.
fn piece_of(change: &str, number: u32) -> Option<&str> {
    change
        .split(" | ")
        .find(|piece| number_of(*piece) == number)
}

/// Appends what a piece puts in the place of its line.
fn push_piece(text: &mut String, piece: &str) -> Result<(), NoMemory> {
    let Some((_, lines)) = piece.split_once('=') else {
        return Ok(());
    };
    for line in lines.split('/') {
        write!(text, "{line}\n")?;
    }
    Ok(())
}

/// An input with a change made.
pub(crate) fn changed(alloc: Global, input: &str, change: &str) -> Result<String, NoMemory> {
    let mut text = String::new(alloc);
    let mut number: u32 = 0;
    for line in input.lines() {
        number = number.saturating_add(1);
        match piece_of(change, number) {
            Some(piece) => push_piece(&mut text, piece)?,
            None => write!(text, "{line}\n")?,
        }
    }
    Ok(text)
}
