ghost use Rattle.std.specs.Prelude.{◌≡◌, ◌<◌, ◌≤◌, ◌^◌, ℕ, Bool, IfNone, IfOk, IfSome, List, length};
ghost use Rattle.std.specs.List.{list_any};
ghost use Rattle.book.specs.declared.entries.Entry.{Entry};
ghost use Rattle.book_check.specs.Inputs.{is_book};
ghost use Rattle.book_check.specs.Judging.{IsAfter};
ghost use Rattle.book_check.specs.Verdicts.{BreaksEntry};
ghost use Rattle.book_check.specs.declared.offences.Rule.TheVariants as Rule;
ghost use Rattle.custody.specs.Tables.{AreTablesOf};
ghost use Rattle.text_model.specs.Lines.{lines_of};
ghost use Rattle.script.specs.Plans.{Plan};
ghost use Rattle.flat_model.specs.Legal.{IsComplete, store_after};
ghost use Rattle.flat_store.specs.Zeros.{HasZeroPage};
ghost use Rattle.reasons.specs.Reasons.{IsWhy, first_of, is_end};
ghost use Rattle.reasons.specs.Told.{IsUnfaulted};

use crate::NoMemory;
use book::{Reply, read_entry};
use book_check::{Judge, Rule, is_book};
use line_reasons::{EntryReason, SumReason, why_no_entry, why_wrong_sum};
use script::{Script, next_line};
use std::alloc::Global;

/// Why a line is refused: the first condition of its rule that doesn't hold (own).
#[derive(Clone, Copy)]
pub enum Reason {
    /// The input has no line whose only field is `book`.
    NoBook,
    /// The line isn't the text of an entry.
    NoEntry(EntryReason),
    /// The flat store doesn't allow the entry; or the book isn't complete, or a stored page is all zeros.
    NotLegal(legal_reasons::Reason),
    /// Custody doesn't allow the entry.
    NotClean(clean_reasons::Reason),
    /// The line isn't the one of the accounts and volumes that is due.
    WrongSum(SumReason),
}

/// Whether one of the lines of an input is the line `book`.
#[tactic(auto, using(crate::proofs::LineLaws::book_steps, std::proofs::lemmas::Grind::common_steps))]
fn has_book(bytes: &[u8]) -> bool
    requires { length bytes.now < 2 ^ 31 }
    ensures { result ≡ list_any is_book (lines_of bytes.now) }
{
    let mut rest = bytes;
    while !rest.is_empty() {
        let (line, more) = next_line(rest);
        if is_book(line) {
            return true;
        }
        rest = more;
    }
    false
}

/// The first line of some bytes; an empty one where there is none.
#[tactic(auto, using(crate::proofs::LineLaws::first_steps, std::proofs::lemmas::Grind::common_steps))]
fn first_line(bytes: &[u8]) -> &[u8]
    ensures text { result.now ≡ first_of (lines_of bytes.now) }
    ensures short { length result.now ≤ length bytes.now }
{
    if bytes.is_empty() {
        return bytes;
    }
    let (line, _) = next_line(bytes);
    line
}

/// Why a line isn't the text of an entry.
fn why_none(line: &[u8]) -> Option<Reason>
    requires { length line.now < 2 ^ 31 }
    ensures { (bytes : List ℕ) (p : Plan) (es : List Entry) (at_end : Bool)
        → IfSome result (IsWhy bytes p es line.now at_end Rule.NoEntry) }
{
    match why_no_entry(line) {
        Some(reason) => Some(Reason::NoEntry(reason)),
        None => None,
    }
}

/// Why the flat store doesn't allow the entry of a line. `None` only where it does.
fn why_not_legal(judge: &Judge, line: &[u8]) -> Option<Reason>
    ensures so { (bytes : List ℕ) (es : List Entry) (at_end : Bool) → IsAfter judge.now es
        → IfSome result (IsWhy bytes judge.now.script es line.now at_end Rule.NotLegal) }
    ensures none { (es : List Entry) → IsAfter judge.now es
        → IfNone result (BreaksEntry judge.now.script es line.now Rule.NotLegal → ⊥) }
{
    let Some(entry) = read_entry(line) else {
        return None;
    };
    match legal_reasons::why_not(judge.script(), judge.store(), &entry) {
        Some(reason) => Some(Reason::NotLegal(reason)),
        None => None,
    }
}

/// Why custody doesn't allow the entry of a line. `None` only where it does.
fn why_not_clean(judge: &Judge, line: &[u8]) -> Option<Reason>
    requires { AreTablesOf judge.now.script judge.now.custody }
    ensures so { (bytes : List ℕ) (es : List Entry) (at_end : Bool) → IsAfter judge.now es
        → IfSome result (IsWhy bytes judge.now.script es line.now at_end Rule.NotClean) }
    ensures none { (es : List Entry) → IsAfter judge.now es
        → IfNone result (BreaksEntry judge.now.script es line.now Rule.NotClean → ⊥) }
{
    let Some(entry) = read_entry(line) else {
        return None;
    };
    match clean_reasons::why_not(judge.script(), judge.store(), judge.custody(), &entry) {
        Some(reason) => Some(Reason::NotClean(reason)),
        None => None,
    }
}

/// Why a book isn't complete that ends with the listing, or with its summary. `None` only where it is.
fn why_incomplete(judge: &Judge, bytes: &[u8], at_end: bool) -> Option<Reason>
    requires { length bytes.now < 2 ^ 31 }
    ensures so { (line : List ℕ) (es : List Entry) → IsAfter judge.now es
        → IfSome result (IsWhy bytes.now judge.now.script es line at_end Rule.Incomplete) }
    ensures none { (es : List Entry) → IsAfter judge.now es → IfNone result (IsComplete judge.now.script es) }
{
    if !has_book(bytes) {
        return Some(Reason::NoBook);
    }
    match legal_reasons::why_incomplete(judge.script(), judge.store(), at_end) {
        Some(reason) => Some(Reason::NotLegal(reason)),
        None => None,
    }
}

/// Which stored page is all zeros. `None` only where none is.
fn why_zeros(judge: &Judge) -> Option<Reason>
    ensures so { (bytes line : List ℕ) (es : List Entry) (at_end : Bool) → IsAfter judge.now es
        → IfSome result (IsWhy bytes judge.now.script es line at_end Rule.ZeroPage) }
    ensures none { (es : List Entry) → IsAfter judge.now es
        → IfNone result (HasZeroPage (store_after judge.now.script es) → ⊥) }
{
    match legal_reasons::why_zeros(judge.store()) {
        Some(reason) => Some(Reason::NotLegal(reason)),
        None => None,
    }
}

/// Why a line of the summary isn't the one that is due.
fn why_not_due(
    alloc: Global,
    judge: &Judge,
    bytes: &[u8],
    rest: &[u8],
) -> Result<Option<Reason>, NoMemory>
    requires few { length bytes.now < 2 ^ 31 }
    requires left { length rest.now < 2 ^ 31 }
    ensures { (line : List ℕ) (es : List Entry) (at_end : Bool) → IsAfter judge.now es
        → IfOk result (λ o. IfSome o (IsWhy bytes.now judge.now.script es line at_end Rule.WrongSum)) }
{
    if !has_book(bytes) {
        return Ok(Some(Reason::NoBook));
    }
    match why_wrong_sum(alloc, judge.script(), judge.store(), rest) {
        Ok(Some((reason, _))) => Ok(Some(Reason::WrongSum(reason))),
        Ok(None) => Ok(None),
        Err(NoMemory) => Err(NoMemory),
    }
}

/// Why a listing is refused that a judge has gone over, whose first line at fault is the first of what is left, and
/// breaks this rule.
pub(crate) fn why(
    alloc: Global,
    judge: &Judge,
    bytes: &[u8],
    rest: &[u8],
    rule: Rule,
) -> Result<Option<Reason>, NoMemory>
    requires tables { AreTablesOf judge.now.script judge.now.custody }
    requires few { length bytes.now < 2 ^ 31 }
    requires left { length rest.now < 2 ^ 31 }
    ensures so { (es : List Entry) → IsAfter judge.now es
        → IfOk result (λ o. IfSome o (IsWhy bytes.now judge.now.script es (first_of (lines_of rest.now))
        (is_end (lines_of rest.now)) rule)) }
    ensures none { (es : List Entry) → IsAfter judge.now es
        → IfOk result (λ o. IfNone o (IsUnfaulted judge.now.script es (first_of (lines_of rest.now)) rule)) }
{
    let line = first_line(rest);
    match rule {
        Rule::NoEntry => Ok(why_none(line)),
        Rule::NotLegal => Ok(why_not_legal(judge, line)),
        Rule::NotClean => Ok(why_not_clean(judge, line)),
        Rule::Incomplete => Ok(why_incomplete(judge, bytes, rest.is_empty())),
        Rule::ZeroPage => Ok(why_zeros(judge)),
        Rule::WrongSum => why_not_due(alloc, judge, bytes, rest),
    }
}

impl Reason {
    /// Whether its sentence speaks of a state that some line of the listing led to.
    pub(crate) fn has_since(&self) -> bool {
        match *self {
            Reason::NoBook | Reason::NoEntry(_) => false,
            Reason::NotLegal(reason) => reason.has_since(),
            Reason::NotClean(reason) => reason.has_since(),
            Reason::WrongSum(reason) => line_reasons::has_since(reason),
        }
    }
}
