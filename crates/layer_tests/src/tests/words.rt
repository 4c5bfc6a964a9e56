use mword::{NoMemory, Word, octal, read_octal};
use script::Command;
use std::alloc::Global;

/// Whether a word is written so, and read back.
fn is_written(alloc: Global, value: u64, text: &str) -> Result<bool, NoMemory> {
    let word = Word::new(value);
    let written = octal(alloc, word.unwrap_or(Word::ZERO))?;
    Ok(written.as_str() == text && read_octal(text.as_bytes()) == word)
}

/// Words, and how they are written.
const TEXTS: [(u64, &str); 4] = [
    (0, "000000000000"),
    (5, "000000000005"),
    (342391, "000001234567"),
    (68719476735, "777777777777"),
];

#[test]
fn twelve_digits_are_written_and_read_back(rt: HostRuntime) -> Result<(), NoMemory> {
    for (value, text) in &TEXTS {
        assert!(rt; is_written(rt.alloc(), *value, text)?, "at {text}");
    }
    assert!(rt; Word::new(68719476736) == None);
    Ok(())
}

#[test]
fn a_command_takes_at_most_400_bytes(rt: HostRuntime) {
    assert!(rt; size_of::<Command>() <= 400);
}
