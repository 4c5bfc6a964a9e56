ghost use Rattle.std.specs.Prelude.{◌≡◌, ◌<◌, ◌+◌, ◌^◌, ◌≤◌, length};
ghost use Rattle.text_model.specs.Lines.{lines_of};
ghost use Rattle.book_check.specs.Closing.{IsOneVerdict, IsTheVerdict, OrMemory, of_script};

use crate::inputs::split_input;
use crate::judge::{Judge, NoMemory};
use crate::offences::CheckFault;
use script::{Script, ScriptFault, read_script};
use std::alloc::Global;

/// Judges the lines of a listing, whose first has this number, by its script.
fn judge_listing(alloc: Global, script: Script, first: u32, lines: &[u8]) -> Result<u32, CheckFault>
    requires { first + length lines.now < 2 ^ 31 }
    ensures { OrMemory (IsOneVerdict script first (lines_of lines.now)) result }
{
    let mut judge = match Judge::boot(alloc, script) {
        Ok(judge) => judge,
        Err(NoMemory) => return Err(CheckFault::Memory),
    };
    match judge.accept_entries(first, lines) {
        Ok(rest) => judge.close(alloc, first, rest),
        Err(fault) => Err(fault),
    }
}

/// What a script's fault comes to.
fn of_script(fault: ScriptFault) -> CheckFault
    ensures { result ≡ of_script fault }
{
    match fault {
        ScriptFault::Refused(refusal) => CheckFault::Script(refusal),
        ScriptFault::Memory => CheckFault::Memory,
    }
}

/// Judges a listing of all entries, whoever made it (own). The bytes are a script, a line whose only field is `book`,
/// and the lines of the listing: its entries, and the summary of the accounts and the volumes. The answer is the number
/// of entries where each entry may stand at its place, each process has ended, no stored page is all zeros, and the
/// summary is right. Then each reply is the flat store's, the quotas sum to the root's of the script, and each account
/// is charged for exactly its stored pages, and for no more than its quota. The last line may lack its line feed.
///
/// The bytes are read in place, and each line once; the lines of the script twice, since the line `book` is looked for
/// first. Memory is taken for the script, the flat store, custody and the text of the summary.
///
/// # Errors
/// `Script` is the first line of the script that is refused, `Refused` the first line of the listing at fault, with the
/// first rule that it breaks; `Memory` is want of memory, and may stand in place of any answer.
pub fn check_book(alloc: Global, bytes: &[u8]) -> Result<u32, CheckFault>
    requires { length bytes.now ≤ 134217728 }
    ensures { OrMemory (IsTheVerdict bytes.now) result }
{
    let input = split_input(bytes);
    match read_script(alloc, input.script) {
        Ok(script) => judge_listing(alloc, script, input.first, input.listing),
        Err(fault) => Err(of_script(fault)),
    }
}
