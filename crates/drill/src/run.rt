//! The whole drill.
ghost use Rattle.std.specs.Prelude.{◌≡◌, ℕ, ◌+◌, ◌<◌, ◌≤◌, [], All, length, sum, IfOk, vec_len, vec_capacity};
ghost use Rattle.live_doors.specs.declared.rule.TheConstants.{MOST_CPUS};
ghost use Rattle.live_pages.specs.Models.{IsKeeperOf, opening_holder};
ghost use Rattle.live_pages.specs.Ending.{IsOfOneThread, IsLeftAfterAll, all_bindings, in_order, made_by};
ghost use Rattle.drill.specs.Work.{work_of, AreFirstOf, sums_of};
ghost use Rattle.drill.specs.Roles.{IsKept, RoleFresh, EachRole, IsEnd};

use crate::errors::NoMemory;
use crate::finish::finish;
use crate::kept::{Kept, bind_all};
use crate::roles::{Role, gather, play_all, seat, take_keeper};
use crate::work::{Size, sums_of};
use live_pages::{Ended, Keeper, LivePages, Pass};
use mword::{Page, Word};
use site_io::Gate;
use std::alloc::Global;
use std::sync::Wait;
use std::thread::Threads;

/// What a drill leaves.
#[derive(Drop)]
pub struct Drilled {
    /// The sum of each processor's work, in order.
    pub sums: Vec<Word>,
    /// The sum of all that is in the pages, handed out or left, and of the adds that no touch made.
    pub total: Word,
    /// How often a frame was bound: each at first, and those that were closed and cleared again.
    pub bindings: u64,
    /// How many adds were made by touches.
    pub touches: u64,
    /// The pages that are left, with all touches and bindings.
    pub ended: Ended,
}

// The keeper of new pages, with a page of zeros to bind.
fn first_kept(alloc: Global, pages: &LivePages, keeper: Keeper) -> Result<Kept, NoMemory>
    requires keeper { IsKeeperOf pages.now keeper }
    requires new { keeper.holder ≡ opening_holder pages.now.frames pages.now.cpus }
    ensures kept { IfOk result (λ kept. IsKept pages.now kept) }
    ensures keeper { IfOk result (λ kept. (kept.keeper ≡ keeper) × (kept.bindings ≡ 0)) }
{
    let page = Page::zero(alloc)?;
    Ok(Kept {
        keeper,
        spare: Some(page),
        sum: Word::ZERO,
        bindings: 0,
    })
}

// New pages, to each of which its frame is bound, and the roles of the drill over them.
fn set_out(alloc: Global, size: Size) -> Result<(LivePages, Vec<Role>), NoMemory>
    requires cpus { (1 ≤ size.cpus) × (size.cpus ≤ MOST_CPUS) }
    requires frames { (1 ≤ size.frames) × (size.frames ≤ 64) }
    ensures size { IfOk result (λ made. (made.0.frames ≡ size.frames) × (made.0.cpus ≡ size.cpus)) }
    ensures roles { IfOk result (λ made. EachRole (RoleFresh made.0 size.cpus) made.1.items) }
    ensures count { IfOk result (λ made. vec_len made.1 ≡ size.cpus + 1) }
{
    let (pages, keeper, passes) = LivePages::new(alloc, size.frames, size.cpus)?;
    let mut kept = first_kept(alloc, &pages, keeper)?;
    bind_all(&pages, &mut kept, size.frames);
    let roles = seat(alloc, &pages, passes, kept)?;
    Ok((pages, roles))
}

// Plays all roles to their end, and closes the pages with the passes, for which there is room in the row.
fn play_out<R: Threads + Wait + Sync, G: Gate + Sync>(
    rt: &R,
    pages: LivePages,
    size: Size,
    gate: &G,
    mut roles: Vec<Role>,
    mut row: Vec<Pass>,
    sums: Vec<Word>,
) -> Drilled
    requires size { (size.cpus ≡ pages.cpus) × (size.frames ≡ pages.frames) }
    requires few { (size.cpus ≤ MOST_CPUS) × (4 ≤ size.frames) × (size.frames ≤ 64) × (size.adds ≤ 10000) }
    requires roles { EachRole (RoleFresh pages size.cpus) roles.items × (vec_len roles ≡ size.cpus + 1) }
    requires row { (row.items ≡ []) × (size.cpus ≤ vec_capacity row) }
    ensures end { IsEnd size.cpus size.frames size.adds size.seed result.total result.bindings result.touches
        result.ended.shown result.ended.pages.items }
    ensures sums { result.sums ≡ sums }
{
    play_all(rt, &pages, size, gate, &mut roles);
    let kept = take_keeper(&pages, size, &mut roles);
    let (unmade, touches) = gather(&pages, size, roles, &mut row);
    finish(pages, size, kept, row, unmade, touches, sums)
}

/// A drill of `p` processors over `f` frames, `n` adds each, and a keeper who binds the frames anew, each on a thread
/// of its own. Processor `cpu` draws the frames of its adds from `seed + cpu` on.
///
/// A processor tries each add at most 64 times and stops at the first that it can't make; after each that it made it
/// calls the gate with `Answered` and its number. Then it rests until the keeper has ended, for a bounded number of
/// times. The keeper calls the gate once, with the number `p`, and makes four rounds for each frame, with at most 1024
/// questions each. How many adds and bindings are made is left to the schedule, and counted.
///
/// The touches of each processor are the first ones of its work, in order. Whatever the schedule was, `sums` has for
/// each processor the sum of its whole work, and `total`, which is added up from the pages and from what was not made,
/// is the sum of them all.
///
/// `NoMemory` comes only from the allocator, before any thread runs. Source: own.
pub fn drill<R: Threads + Wait + Sync, G: Gate + Sync>(
    rt: &R,
    alloc: Global,
    p: u32,
    f: u32,
    n: u32,
    seed: u32,
    gate: &G,
) -> Result<Drilled, NoMemory>
    requires cpus { (1 ≤ p) × (p ≤ MOST_CPUS) }
    requires frames { (4 ≤ f) × (f ≤ 64) }
    requires adds { (1 ≤ n) × (n ≤ 10000) }
    ensures front { IfOk result (λ d. (cpu : ℕ) → cpu < p →
        AreFirstOf (work_of f (seed + cpu) n) (made_by cpu d.ended.shown)) }
    ensures sums { IfOk result (λ d. d.sums.items ≡ sums_of f n seed p) }
    ensures total { IfOk result (λ d. d.total ≡ sum (sums_of f n seed p)) }
    ensures bindings { IfOk result (λ d. d.bindings ≡ length d.ended.shown.ended) }
    ensures touches { IfOk result (λ d. d.touches ≡ length (in_order d.ended.shown)) }
    ensures one_thread { IfOk result (λ d. IsOfOneThread p d.ended.shown) }
    ensures left { IfOk result (λ d.
        All (IsLeftAfterAll d.ended.shown) (all_bindings d.ended.pages.items d.ended.shown)) }
{
    let size = Size {
        cpus: p,
        frames: f,
        adds: n,
        seed,
    };
    let sums = sums_of(alloc, size)?;
    let row = Vec::with_capacity(alloc, p as usize)?;
    let (pages, roles) = set_out(alloc, size)?;
    Ok(play_out(rt, pages, size, gate, roles, row, sums))
}
