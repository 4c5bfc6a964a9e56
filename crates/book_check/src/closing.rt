ghost use Rattle.std.specs.Prelude.{◌≡◌, ◌≢◌, ◌+◌, ◌<◌, ◌≤◌, ◌^◌, length, IfOk, IfNone, IfSome, string_bytes};
ghost use Rattle.std.specs.Bool.{Decides};
ghost use Rattle.text_model.specs.Lines.{lines_of};
ghost use Rattle.flat_model.specs.Store.{Store};
ghost use Rattle.flat_store.specs.Shown.{Shows};
ghost use Rattle.listing.specs.Listings.{summary_of, summary_text};
ghost use Rattle.book_check.specs.Closing.{Closes};
ghost use Rattle.book_check.specs.declared.offences.CheckFault.TheVariants as CheckFault;
ghost use Rattle.book_check.specs.Judging.{HaveEnded};
ghost use Rattle.book_check.specs.Verdicts.{same_lines};

use crate::judge::{Judge, accounts_promise};
use crate::offences::{CheckFault, Offence, Rule};
use flat_store::FlatStore;
use listing::{NoMemory, summary, summary_text};
use script::{Script, next_line};
use std::alloc::Global;

/// Whether each process of a script has ended.
fn have_ended(script: &Script, store: &FlatStore) -> bool
    ensures { (s : Store) → Shows script.now store.now s → Decides result (HaveEnded script.now s) }
{
    for process in 0..script.processes() {
        if !store.has_ended(process) {
            return false;
        }
    }
    true
}

/// The lines of the accounts and the volumes.
fn due_text(alloc: Global, script: &Script, store: &FlatStore) -> Result<String, NoMemory>
    ensures { IfOk result (λ text. (s : Store) → Shows script.now store.now s
        → string_bytes text ≡ summary_text (summary_of script.now s)) }
{
    let summary = summary(alloc, script, store)?;
    summary_text(alloc, &summary)
}

/// How many lines at the front are those that are due. `None` where all lines are those.
fn first_other(given: &[u8], due: &[u8]) -> Option<u32>
    requires { length given.now < 2 ^ 31 }
    ensures same { IfNone result (lines_of given.now ≡ lines_of due.now) }
    ensures other { IfSome result (λ n. lines_of given.now ≢ lines_of due.now) }
    ensures count { IfSome result (λ n. n ≡ same_lines (lines_of given.now) (lines_of due.now)) }
    ensures few { IfSome result (λ n. n ≤ length given.now) }
{
    let mut left = given;
    let mut wanted = due;
    let mut same = 0;
    while !left.is_empty() {
        if wanted.is_empty() {
            return Some(same);
        }
        let (line, more) = next_line(left);
        let (due_line, due_more) = next_line(wanted);
        if line != due_line {
            return Some(same);
        }
        same += 1;
        left = more;
        wanted = due_more;
    }
    if wanted.is_empty() { None } else { Some(same) }
}

/// A line at fault.
fn refused(line: u32, rule: Rule) -> CheckFault
    ensures { result ≡ CheckFault.Refused (record { line = line; rule = rule }) }
{
    CheckFault::Refused(Offence { line, rule })
}

impl Judge {
    /// Judges what follows the entries of a listing whose first line has this number. It is the number of entries where
    /// that is the summary that is due, and the book is complete and leaves no stored page that is all zeros.
    pub(crate) fn close(&self, alloc: Global, first: u32, rest: &[u8]) -> Result<u32, CheckFault>
        requires { first + self.now.entries + length rest.now < 2 ^ 31 }
        ensures { Closes self.now first (lines_of rest.now) result }
    {
        let line = first + self.entries;
        accounts_promise(&self.store);
        if !have_ended(&self.script, &self.store) {
            return Err(refused(line, Rule::Incomplete));
        }
        if self.store.has_zero_page() {
            return Err(refused(line, Rule::ZeroPage));
        }
        let due = match due_text(alloc, &self.script, &self.store) {
            Ok(due) => due,
            Err(NoMemory) => return Err(CheckFault::Memory),
        };
        match first_other(rest, due.as_bytes()) {
            None => Ok(self.entries),
            Some(agreeing) => Err(refused(line + agreeing, Rule::WrongSum)),
        }
    }
}
