ghost use Rattle.std.specs.Prelude.{◌≡◌, ◌<◌, false, codes, length};
ghost use Rattle.std.specs.Str.{bytes_eq};
ghost use Rattle.script.specs.CommandLists.{Lists};
ghost use Rattle.script.specs.Commands.{path_alone, path_and_number, place_in, place_and_word};
ghost use Rattle.script.specs.Commands.{mkdir_of, mkseg_of, initiate_of, terminate_of, read_of, write_of, add_of};
ghost use Rattle.script.specs.Commands.{await_of, acl_of, length_of, truncate_of, delete_of, move_of, status_of};
ghost use Rattle.script.specs.Commands.{other_command_of, reference_or, command_of};
ghost use Rattle.text_model.specs.Lines.{fields_of};
ghost use Rattle.script.specs.Readers.{Gives};

use crate::command_list::CommandList;
use crate::commands::Command;
use crate::drafts::LineFault;
use crate::fields::{four_fields, one_field, three_fields, two_fields};
use crate::plan::VolumeLine;
use crate::refusals::Cause;
use crate::values::{amount_in, mode_in, number_in, path_in, row_in, word_in};
use crate::volumes::volume_in;
use mnames::Path;
use mword::Word;

/// A path alone.
#[tactic(auto, unfolding(crate::specs::Commands::path_alone))]
fn path_alone(line: &[u8]) -> Result<Path, Cause>
    ensures { Gives (λ p. p) result (path_alone (fields_of line.now)) }
{
    let path = one_field(line)?;
    path_in(path)
}

/// A path, and a number from low to high.
#[tactic(auto, unfolding(crate::specs::Commands::path_and_number))]
fn path_and_number(line: &[u8], low: u32, high: u32) -> Result<(Path, u32), Cause>
    ensures { Gives (λ p. p) result (path_and_number low high (fields_of line.now)) }
{
    let (path, number) = two_fields(line)?;
    let path = path_in(path)?;
    let number = number_in(number, low, high)?;
    Ok((path, number))
}

/// The place of a word: the number of a segment, and an offset.
#[tactic(auto, unfolding(crate::specs::Commands::place_in))]
fn place_in(number: &[u8], offset: &[u8]) -> Result<(u32, u32), Cause>
    ensures { Gives (λ p. p) result (place_in number.now offset.now) }
{
    let number = number_in(number, 0, 255)?;
    let offset = number_in(offset, 0, 999_999)?;
    Ok((number, offset))
}

/// The place of a word, and a word.
#[tactic(auto, unfolding(crate::specs::Commands::place_and_word))]
fn place_and_word(line: &[u8]) -> Result<(u32, u32, Word), Cause>
    ensures { Gives (λ p. p) result (place_and_word (fields_of line.now)) }
{
    let (number, offset, word) = three_fields(line)?;
    let (number, offset) = place_in(number, offset)?;
    let word = word_in(word)?;
    Ok((number, offset, word))
}

impl CommandList {
    /// `mkdir PATH VOLUME`
    #[tactic(auto, unfolding(crate::specs::Commands::mkdir_of))]
    fn mkdir(&mut self, volumes: &[VolumeLine], line: &[u8]) -> Result<(), LineFault>
        requires { length volumes.now < 5 }
        ensures { Lists self.old self.new result (mkdir_of volumes.now (fields_of line.now)) }
    {
        let (path, volume) = two_fields(line)?;
        let path = path_in(path)?;
        let volume = volume_in(volumes, volume)?;
        self.push(Command::MkDir { path, volume })
    }

    /// `mkseg PATH PAGES VOLUME`
    #[tactic(auto, unfolding(crate::specs::Commands::mkseg_of))]
    fn mkseg(&mut self, volumes: &[VolumeLine], line: &[u8]) -> Result<(), LineFault>
        requires { length volumes.now < 5 }
        ensures { Lists self.old self.new result (mkseg_of volumes.now (fields_of line.now)) }
    {
        let (path, pages, volume) = three_fields(line)?;
        let path = path_in(path)?;
        let pages = number_in(pages, 1, 256)?;
        let volume = volume_in(volumes, volume)?;
        self.push(Command::MkSeg {
            path,
            pages,
            volume,
        })
    }

    /// `initiate PATH`
    #[tactic(auto, unfolding(crate::specs::Commands::initiate_of))]
    fn initiate(&mut self, line: &[u8]) -> Result<(), LineFault>
        ensures { Lists self.old self.new result (initiate_of (fields_of line.now)) }
    {
        let path = path_alone(line)?;
        self.push(Command::Initiate { path })
    }

    /// `terminate N`
    #[tactic(auto, unfolding(crate::specs::Commands::terminate_of))]
    fn terminate(&mut self, line: &[u8]) -> Result<(), LineFault>
        ensures { Lists self.old self.new result (terminate_of (fields_of line.now)) }
    {
        let number = one_field(line)?;
        let number = number_in(number, 0, 255)?;
        self.push(Command::Terminate { number })
    }

    /// `read N OFF`
    #[tactic(auto, unfolding(crate::specs::Commands::read_of))]
    fn read(&mut self, line: &[u8]) -> Result<(), LineFault>
        ensures { Lists self.old self.new result (read_of (fields_of line.now)) }
    {
        let (number, offset) = two_fields(line)?;
        let (number, offset) = place_in(number, offset)?;
        self.push(Command::Read { number, offset })
    }

    /// `write N OFF W`
    #[tactic(auto, unfolding(crate::specs::Commands::write_of))]
    fn write(&mut self, line: &[u8]) -> Result<(), LineFault>
        ensures { Lists self.old self.new result (write_of (fields_of line.now)) }
    {
        let (number, offset, word) = place_and_word(line)?;
        self.push(Command::Write {
            number,
            offset,
            word,
        })
    }

    /// `add N OFF W`
    #[tactic(auto, unfolding(crate::specs::Commands::add_of))]
    fn add(&mut self, line: &[u8]) -> Result<(), LineFault>
        ensures { Lists self.old self.new result (add_of (fields_of line.now)) }
    {
        let (number, offset, word) = place_and_word(line)?;
        self.push(Command::Add {
            number,
            offset,
            word,
        })
    }

    /// `await N OFF W TRIES`
    #[tactic(auto, unfolding(crate::specs::Commands::await_of))]
    fn await_word(&mut self, line: &[u8]) -> Result<(), LineFault>
        ensures { Lists self.old self.new result (await_of (fields_of line.now)) }
    {
        let (number, offset, word, tries) = four_fields(line)?;
        let (number, offset) = place_in(number, offset)?;
        let word = word_in(word)?;
        let tries = number_in(tries, 1, 100_000)?;
        self.push(Command::Await {
            number,
            offset,
            word,
            tries,
        })
    }

    /// `acl PATH WHO MODE`
    #[tactic(auto, unfolding(crate::specs::Commands::acl_of))]
    fn acl(&mut self, line: &[u8]) -> Result<(), LineFault>
        ensures { Lists self.old self.new result (acl_of (fields_of line.now)) }
    {
        let (path, row, mode) = three_fields(line)?;
        let path = path_in(path)?;
        let row = row_in(row)?;
        let mode = mode_in(mode)?;
        self.push(Command::Acl { path, row, mode })
    }

    /// `length PATH PAGES`
    #[tactic(auto, unfolding(crate::specs::Commands::length_of))]
    fn length(&mut self, line: &[u8]) -> Result<(), LineFault>
        ensures { Lists self.old self.new result (length_of (fields_of line.now)) }
    {
        let (path, pages) = path_and_number(line, 1, 256)?;
        self.push(Command::Length { path, pages })
    }

    /// `truncate PATH WORDS`
    #[tactic(auto, unfolding(crate::specs::Commands::truncate_of))]
    fn truncate(&mut self, line: &[u8]) -> Result<(), LineFault>
        ensures { Lists self.old self.new result (truncate_of (fields_of line.now)) }
    {
        let (path, words) = path_and_number(line, 0, 262_144)?;
        self.push(Command::Truncate { path, words })
    }

    /// `delete PATH`
    #[tactic(auto, unfolding(crate::specs::Commands::delete_of))]
    fn delete(&mut self, line: &[u8]) -> Result<(), LineFault>
        ensures { Lists self.old self.new result (delete_of (fields_of line.now)) }
    {
        let path = path_alone(line)?;
        self.push(Command::Delete { path })
    }

    /// `move PATH +N` or `move PATH -N`
    #[tactic(auto, unfolding(crate::specs::Commands::move_of))]
    fn move_quota(&mut self, line: &[u8]) -> Result<(), LineFault>
        ensures { Lists self.old self.new result (move_of (fields_of line.now)) }
    {
        let (path, amount) = two_fields(line)?;
        let path = path_in(path)?;
        let amount = amount_in(amount)?;
        self.push(Command::Move { path, amount })
    }

    /// `status PATH`
    #[tactic(auto, unfolding(crate::specs::Commands::status_of))]
    fn status(&mut self, line: &[u8]) -> Result<(), LineFault>
        ensures { Lists self.old self.new result (status_of (fields_of line.now)) }
    {
        let path = path_alone(line)?;
        self.push(Command::Status { path })
    }

    /// A command that changes or asks for what a segment or a directory is like.
    #[tactic(auto, unfolding(crate::specs::Commands::other_command_of))]
    fn other_command(&mut self, word: &[u8], line: &[u8]) -> Result<(), LineFault>
        requires { bytes_eq word.now (codes "end") ≡ false }
        ensures { Lists self.old self.new result (other_command_of word.now (fields_of line.now)) }
    {
        if word == b"acl".as_slice() {
            self.acl(line)
        } else if word == b"length".as_slice() {
            self.length(line)
        } else if word == b"truncate".as_slice() {
            self.truncate(line)
        } else if word == b"move".as_slice() {
            self.move_quota(line)
        } else if word == b"status".as_slice() {
            self.status(line)
        } else {
            Err(LineFault::Refused(Cause::Order))
        }
    }

    /// A reference to a word, or another command.
    #[tactic(auto, unfolding(crate::specs::Commands::reference_or))]
    fn reference_or(&mut self, word: &[u8], line: &[u8]) -> Result<(), LineFault>
        requires { bytes_eq word.now (codes "end") ≡ false }
        ensures { Lists self.old self.new result (reference_or word.now (fields_of line.now)) }
    {
        if word == b"read".as_slice() {
            self.read(line)
        } else if word == b"write".as_slice() {
            self.write(line)
        } else if word == b"add".as_slice() {
            self.add(line)
        } else if word == b"await".as_slice() {
            self.await_word(line)
        } else {
            self.other_command(word, line)
        }
    }

    /// The command of a line, by its word, which isn't that of the end, and what follows the word.
    #[tactic(auto, unfolding(crate::specs::Commands::command_of))]
    pub(crate) fn line(
        &mut self,
        volumes: &[VolumeLine],
        word: &[u8],
        line: &[u8],
    ) -> Result<(), LineFault>
        requires few { length volumes.now < 5 }
        requires going { bytes_eq word.now (codes "end") ≡ false }
        ensures { Lists self.old self.new result (command_of volumes.now word.now (fields_of line.now)) }
    {
        if word == b"mkdir".as_slice() {
            self.mkdir(volumes, line)
        } else if word == b"mkseg".as_slice() {
            self.mkseg(volumes, line)
        } else if word == b"initiate".as_slice() {
            self.initiate(line)
        } else if word == b"terminate".as_slice() {
            self.terminate(line)
        } else if word == b"delete".as_slice() {
            self.delete(line)
        } else {
            self.reference_or(word, line)
        }
    }
}
