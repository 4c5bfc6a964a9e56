//! A processor: what it holds in its associative memories, its process, what it is to drop, and the transfer that it
//! has under way; and what it does by itself with a reference (Bensoussan, Clingen and Daley 1972; Corbató 1968).
//!
//! Costs: `next_move` looks through at most 32 held entries, and where they don't have the page it searches the active
//! segment table once and reads one page table word. It takes no memory.
#![tactic(auto)]

ghost use Rattle.std.specs.Prelude.{◌≡◌, ◌<◌, ℕ, length, IfSome, Some};
ghost use Rattle.active_segs.specs.Active.{IsActive, table_at, uid_at};
ghost use Rattle.assoc_mem.specs.Held.{seg_of};
ghost use Rattle.flat_model.specs.References.{word_reply};
ghost use Rattle.page_table.specs.declared.Ptw.{Ptw as TableWord};
ghost use Rattle.processor.specs.Moves.{AreWords, IsLongEnough, by_descriptor, by_held, by_word, next_move};
ghost use Rattle.processor.specs.Moves.{offline};

use active_segs::Ast;
use assoc_mem::{Assoc, HeldSeg, What};
use book::Reply;
use descriptor_seg::{DescSeg, Sdw};
use mword::{Page, Word};
use page_table::Ptw;
use script::{RefKind, Reference};

/// A page that a processor is reading into a frame by itself.
#[derive(Clone, Copy, PartialEq, Eq)]
pub struct Transfer {
    /// The frame.
    pub frame: u32,
    /// The segment.
    pub uid: u32,
    /// Its page.
    pub page: u32,
}

/// A processor (Corbató 1968; the associative memories are those of Bensoussan, Clingen and Daley 1972).
#[derive(Drop)]
pub struct Cpu {
    /// What it holds.
    pub assoc: Assoc,
    /// Its process, if it has one.
    pub process: Option<u32>,
    /// What it is to drop before it does anything else.
    pub due: Option<What>,
    /// Whether it takes part.
    pub online: bool,
    /// The transfer that it has under way, if it has one.
    pub transfer: Option<Transfer>,
}

/// What a processor does by itself with a reference (Bensoussan, Clingen and Daley 1972).
#[derive(Clone, Copy, PartialEq, Eq)]
pub enum Move {
    /// It takes in the segment descriptor word of the number.
    FillSeg,
    /// It takes in the page table word of this frame.
    FillPage(u32),
    /// It reads or writes the word in this frame.
    Through(u32),
    /// The process is answered so, and no frame is looked at.
    Plain(Reply),
    /// It needs the supervisor.
    Fault,
}

impl Cpu {
    /// A processor that doesn't take part yet: it holds nothing and has no process, and nothing is due at it.
    pub fn offline() -> Cpu
        ensures { result ≡ offline }
    {
        Cpu {
            assoc: Assoc::new(),
            process: None,
            due: None,
            online: false,
            transfer: None,
        }
    }
}

/// What a reference to a word of a page of zeros is answered that leaves it one.
fn zero_reply(kind: &RefKind) -> Reply
    ensures { result ≡ word_reply 0 kind.now }
{
    match kind {
        RefKind::Write(_) => Reply::Done,
        RefKind::Read | RefKind::Add(_) => Reply::Word(kind.new_word(Word::ZERO)),
    }
}

/// What is done by the segment descriptor word, where none is held.
fn by_descriptor(word: Sdw) -> Move
    ensures { result ≡ by_descriptor word }
{
    match word {
        Sdw::Fault => Move::Fault,
        Sdw::Present { .. } => Move::FillSeg,
    }
}

/// What is done by the page table word, where none is held.
fn by_word(word: Ptw, kind: &RefKind) -> Move
    ensures { result ≡ by_word word kind.now }
{
    match word {
        Ptw::Null if kind.new_word(Word::ZERO) == Word::ZERO => Move::Plain(zero_reply(kind)),
        Ptw::Here(frame) => Move::FillPage(frame),
        Ptw::Null | Ptw::Out(_) | Ptw::Leaving(_) => Move::Fault,
    }
}

/// The page table word of a page of an active segment.
fn word_of(ast: &Ast, uid: u32, page: u32) -> Ptw
    requires active { IsActive ast.now.entries uid }
    requires within { (place : ℕ) → uid_at ast.now.entries place ≡ Some uid
        → page < length (table_at ast.now.tables place) }
    ensures { (words : ℕ → ℕ → TableWord) → AreWords ast.now words → result ≡ words uid page }
{
    match ast.search(uid) {
        Some(place) => ast.table(place).get(page),
        None => unreachable!(),
    }
}

/// What is done by the descriptor that is held.
fn by_held(assoc: &Assoc, ast: &Ast, reference: &Reference, held: &HeldSeg) -> Move
    requires { IsLongEnough ast.now held.now }
    ensures { (words : ℕ → ℕ → TableWord) → AreWords ast.now words
        → result ≡ by_held assoc.now words reference.now held.now }
{
    if !reference.kind.permitted_by(held.mode) {
        return Move::Plain(Reply::NoAccess);
    }
    let page = reference.offset / Page::WORDS;
    if page >= held.pages {
        return Move::Plain(Reply::Length);
    }
    match assoc.find_ptw(held.uid, page) {
        Some(frame) => Move::Through(frame),
        None => by_word(word_of(ast, held.uid, page), &reference.kind),
    }
}

/// What a processor does by itself with a reference of its process, whose descriptors these are (Bensoussan, Clingen
/// and Daley 1972): by its associative memories first, and by the tables where they hold nothing.
///
/// The segment of a descriptor that it holds must be active, with a page table that is as long as the descriptor says.
pub fn next_move(cpu: &Cpu, descriptors: &DescSeg, ast: &Ast, reference: Reference) -> Move
    requires number { reference.number < 256 }
    requires active { IfSome (seg_of cpu.now.assoc reference.number) (IsLongEnough ast.now) }
    ensures { (words : ℕ → ℕ → TableWord) → AreWords ast.now words
        → result ≡ next_move cpu.now.assoc descriptors.now words reference }
{
    match cpu.assoc.find_sdw(reference.number) {
        Some(held) => by_held(&cpu.assoc, ast, &reference, &held),
        None => by_descriptor(descriptors.get(reference.number)),
    }
}
