//! The threads of the drill.
ghost use Rattle.std.specs.Prelude.{◌≡◌, ◌+◌, ◌%◌, ◌^◌, ◌-◌, ◌<◌, ◌≤◌, [], All, vec_len, vec_capacity, IfOk};
ghost use Rattle.live_doors.specs.declared.rule.TheConstants.{MOST_CPUS};
ghost use Rattle.live_pages.specs.Models.{IsPassOf, first_passes};
ghost use Rattle.drill.specs.Roles.{IsKept, RoleFresh, RoleDone, EachRole, AreDone, words_to, missing};
ghost use Rattle.drill.specs.Roles.{made_count};

use crate::kept::{Kept, keep};
use crate::waits::Rounds;
use crate::work::{Size, words_to};
use crate::worker::{Worker, work};
use live_pages::{LivePages, Pass};
use mword::Word;
use site_io::Gate;
use std::alloc::{AllocError, Global};
use std::sync::Wait;
use std::thread;
use std::thread::Threads;

/// What a thread does: a processor's work, or the keeper's.
#[derive(Drop)]
pub(crate) enum Role {
    Works(Worker),
    Keeps(Kept),
}

/// Seats all processors, the last one first, and after them the keeper.
pub(crate) fn seat(
    alloc: Global,
    pages: &LivePages,
    mut passes: Vec<Pass>,
    kept: Kept,
) -> Result<Vec<Role>, AllocError>
    requires cpus { pages.now.cpus ≤ MOST_CPUS }
    requires passes { passes.items ≡ first_passes pages.now pages.now.cpus }
    requires passes_of { All (IsPassOf pages.now) passes.items }
    requires kept { IsKept pages.now kept × (kept.keeper.holder.watch.request ≡ 0) }
    ensures roles { IfOk result (λ roles. EachRole (RoleFresh pages.now pages.now.cpus) roles.items) }
    ensures count { IfOk result (λ roles. vec_len roles ≡ pages.now.cpus + 1) }
{
    let mut roles = Vec::with_capacity(alloc, passes.len() + 1)?;
    while let Some(pass) = passes.pop() {
        let cpu = passes.len() as u32;
        roles.push_reserved(Role::Works(Worker { pass, cpu, done: 0 }));
    }
    roles.push_reserved(Role::Keeps(kept));
    Ok(roles)
}

// Plays one role.
fn play<R: Threads + Wait + Sync, G: Gate>(
    rt: &R,
    pages: &LivePages,
    size: Size,
    gate: &G,
    rounds: &Rounds,
    place: usize,
    role: &mut Role,
)
    requires role { RoleFresh pages.now size.cpus place role.old }
    requires frames { (size.frames ≡ pages.now.frames) × (4 ≤ size.frames) × (size.frames ≤ 64) }
    requires adds { size.adds ≤ 10000 }
    ensures { RoleDone pages.now size.seed size.adds size.cpus place role.new }
{
    match role {
        Role::Works(worker) => work(rt, pages, size, gate, rounds, worker),
        Role::Keeps(kept) => keep(rt, pages, size, gate, rounds, kept),
    }
}

/// Plays all roles, each on a thread of its own.
pub(crate) fn play_all<R: Threads + Wait + Sync, G: Gate + Sync>(
    rt: &R,
    pages: &LivePages,
    size: Size,
    gate: &G,
    roles: &mut Vec<Role>,
)
    requires roles { EachRole (RoleFresh pages.now size.cpus) roles.old.items }
    requires some { 0 < vec_len roles.old }
    requires frames { (size.frames ≡ pages.now.frames) × (4 ≤ size.frames) × (size.frames ≤ 64) }
    requires adds { size.adds ≤ 10000 }
    ensures done { EachRole (RoleDone pages.now size.seed size.adds size.cpus) roles.new.items }
    ensures count { vec_len roles.new ≡ vec_len roles.old }
{
    let threads = roles.len();
    let rounds = Rounds::new();
    thread::for_each_mut(
        rt,
        roles.as_mut_slice(),
        threads,
        &|place, role: &mut Role|
            requires { (size.frames ≡ pages.now.frames) × (4 ≤ size.frames) × (size.frames ≤ 64) × (size.adds ≤ 10000)
                × RoleFresh pages.now size.cpus place role.old }
            ensures { RoleDone pages.entry.now size.seed size.adds size.cpus place role.new }
        {
            play(rt, pages, size, gate, &rounds, place, role);
        },
    );
}

/// Takes the keeper, who has the last role.
pub(crate) fn take_keeper(pages: &LivePages, size: Size, roles: &mut Vec<Role>) -> Kept
    requires roles { EachRole (RoleDone pages.now size.seed size.adds size.cpus) roles.old.items }
    requires count { vec_len roles.old ≡ size.cpus + 1 }
    ensures kept { IsKept pages.now result }
    ensures roles { EachRole (RoleDone pages.now size.seed size.adds size.cpus) roles.new.items }
    ensures count { vec_len roles.new ≡ size.cpus }
{
    let Some(role) = roles.pop() else {
        unreachable!()
    };
    let Role::Keeps(kept) = role else {
        unreachable!()
    };
    kept
}

// The sum of the words of the adds that a processor has not made.
#[tactic(auto, using(crate::proofs::Words::words_mono, std::proofs::lemmas::Grind::common_steps))]
fn unmade(adds: u32, done: u32) -> Word
    requires few { adds ≤ 10000 }
    requires done { done ≤ adds }
    ensures { result ≡ words_to adds - words_to done }
{
    let left = words_to(adds) - words_to(done);
    Word::new(left).unwrap_or(Word::ZERO)
}

/// Takes the passes of all processors, in order, and answers the sum of the words of the adds that they have not made,
/// and how many they have made.
pub(crate) fn gather(
    pages: &LivePages,
    size: Size,
    mut roles: Vec<Role>,
    row: &mut Vec<Pass>,
) -> (Word, u64)
    requires size { (size.cpus ≡ pages.now.cpus) × (size.cpus ≤ MOST_CPUS) × (size.adds ≤ 10000) }
    requires roles { EachRole (RoleDone pages.now size.seed size.adds size.cpus) roles.items }
    requires count { vec_len roles ≡ size.cpus }
    requires row { (row.old.items ≡ []) × (size.cpus ≤ vec_capacity row.old) }
    ensures passes { All (IsPassOf pages.now) row.new.items }
    ensures done { AreDone pages.now size.seed size.adds 0 row.new.items }
    ensures count { vec_len row.new ≡ size.cpus }
    ensures sum { result.0 ≡ missing size.adds row.new.items % 2 ^ 36 }
    ensures touches { result.1 ≡ made_count row.new.items }
{
    let mut sum = Word::ZERO;
    let mut touches = 0;
    while let Some(role) = roles.pop() {
        let Role::Works(worker) = role else {
            unreachable!()
        };
        sum = sum.plus(unmade(size.adds, worker.done));
        touches += u64::from(worker.done);
        let Worker { pass, .. } = worker;
        row.push_reserved(pass);
    }
    (sum, touches)
}
