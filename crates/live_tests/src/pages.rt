//! Tests of the pages.
ghost use Rattle.std.specs.Prelude.{◌≡◌, [], ◌∷◌, ◌^◌, ◌<◌, ◌≤◌, All, length};
ghost use Rattle.std.specs.Prelude.{slice_index_or, None, Some, IsTrue, IfSome};
ghost use Rattle.live_pages.specs.Touches.{place_of};
ghost use Rattle.live_pages.specs.Turns.{current};
ghost use Rattle.live_pages.specs.Ending.{in_order};
ghost use Rattle.live_tests.specs.Row.{made_so, adds, reads, puts, IsEntered, IsSame};
ghost use Rattle.live_doors.specs.Doors.{IsAdmitted};
ghost use Rattle.live_pages.specs.Models.{PassModel, IsPassOf, IsKeeperOf, AreAll, first_passes, opening_holder};

use live_pages::{Ended, Keeper, LivePages, NoMemory, Pass, Touch, Touched};
use mword::{Page, Word};
use std::alloc::Global;
use std::process::Abort;

// The two passes, in order.
fn both(mut passes: Vec<Pass>) -> Option<(Pass, Pass)>
    requires { length passes.items ≡ 2 }
    ensures { IfSome result (λ two. (d : PassModel) → (two.0 ≡ slice_index_or passes.items 0 d)
        × (two.1 ≡ slice_index_or passes.items 1 d)) }
{
    let one = passes.pop()?;
    let zero = passes.pop()?;
    Some((zero, one))
}

// The new passes of both processors, in order.
fn first_two(pages: &LivePages, passes: Vec<Pass>) -> Option<(Pass, Pass)>
    requires first { passes.items ≡ first_passes pages.now 2 }
    requires of { All (IsPassOf pages.now) passes.items }
    ensures zero { IfSome result (λ two. IsPassOf pages.now two.0 × (two.0.walker.made ≡ [])
        × (two.0.walker.walk.cpu ≡ 0)) }
    ensures one { IfSome result (λ two. IsPassOf pages.now two.1 × (two.1.walker.made ≡ [])
        × (two.1.walker.walk.cpu ≡ 1)) }
{
    both(passes)
}

// Both passes in a row.
fn row(alloc: Global, zero: Pass, one: Pass) -> Option<Vec<Pass>>
    ensures { IfSome result (λ passes. passes.items ≡ zero ∷ one ∷ []) }
{
    vec![in alloc; zero, one].ok()
}

// All passes, for the close.
fn gather(alloc: Global, pages: &LivePages, zero: Pass, one: Pass) -> Option<Vec<Pass>>
    requires count { pages.now.cpus ≡ 2 }
    requires cpus { (zero.walker.walk.cpu ≡ 0) × (one.walker.walk.cpu ≡ 1) }
    ensures row { IfSome result (λ passes. passes.items ≡ zero ∷ one ∷ []) }
    ensures all { IfSome result (λ passes. AreAll pages.now passes.items) }
{
    row(alloc, zero, one)
}

// Enters frame 0, and says whether its first binding was admitted.
fn enters_first_binding(pages: &LivePages, pass: &mut Pass) -> bool
    requires pass { IsPassOf pages.now pass.old }
    requires frame { pages.now.frames ≡ 1 }
    ensures pass { IsPassOf pages.now pass.new }
    ensures cpu { pass.new.walker.walk.cpu ≡ pass.old.walker.walk.cpu }
    ensures made { pass.new.walker.made ≡ pass.old.walker.made }
    ensures entry { IsTrue result → slice_index_or pass.new.walker.walk.held 0 None ≡ Some 1 }
{
    let Ok(binding) = pages.fill(pass, 0) else {
        return false;
    };
    binding == 1
}

// Touches the first binding of frame 0, and says whether the answer is the one expected.
fn touches_as_expected(pages: &LivePages, pass: &mut Pass, t: Touch, expected: Touched) -> bool
    requires pass { IsPassOf pages.now pass.old }
    requires frame { pages.now.frames ≡ 1 }
    requires entry { slice_index_or pass.old.walker.walk.held 0 None ≡ Some 1 }
    requires place { place_of t < 1024 }
    requires few { length pass.old.walker.made < 2 ^ 32 }
    ensures pass { IsPassOf pages.now pass.new }
    ensures cpu { pass.new.walker.walk.cpu ≡ pass.old.walker.walk.cpu }
    ensures held { pass.new.walker.walk.held ≡ pass.old.walker.walk.held }
    ensures made { IsTrue result → pass.new.walker.made
        ≡ made_so pass.old.walker.walk.cpu t expected ∷ pass.old.walker.made }
{
    let Ok(done) = pages.touch(pass, 0, t) else {
        return false;
    };
    done == expected
}

// What a touch is answered.
fn answered(ticket: u64, word: Word) -> Touched
    ensures { result ≡ record { ticket = ticket; word = word } }
{
    Touched { ticket, word }
}

// Closes the pages of the row, whose touches are then seen in order of ticket.
fn close_row(
    alloc: Global,
    pages: LivePages,
    keeper: Keeper,
    zero: Pass,
    one: Pass,
) -> Option<Ended>
    requires keeper { IsKeeperOf pages keeper }
    requires passes { IsPassOf pages zero × IsPassOf pages one }
    requires count { pages.cpus ≡ 2 }
    requires cpus { (zero.walker.walk.cpu ≡ 0) × (one.walker.walk.cpu ≡ 1) }
    requires zero { zero.walker.made ≡ puts ∷ adds ∷ [] }
    requires one { one.walker.made ≡ reads ∷ [] }
    ensures count { IfSome result (λ ended. length ended.pages.items ≡ pages.frames) }
    ensures touches { IfSome result (λ ended. in_order ended.shown ≡ adds ∷ reads ∷ puts ∷ []) }
{
    let passes = gather(alloc, &pages, zero, one)?;
    Some(pages.close(keeper, passes))
}

// Binds frame 0 to a page of zeros, which both passes enter.
fn binds(
    rt: &impl Abort,
    pages: &LivePages,
    keeper: &mut Keeper,
    zero: &mut Pass,
    one: &mut Pass,
    page: Page,
)
    requires keeper { IsKeeperOf pages.now keeper.old × (keeper.old.holder ≡ opening_holder 1 2) }
    requires frame { pages.now.frames ≡ 1 }
    requires zero { IsPassOf pages.now zero.old × (zero.old.walker.made ≡ []) × (zero.old.walker.walk.cpu ≡ 0) }
    requires one { IsPassOf pages.now one.old × (one.old.walker.made ≡ []) × (one.old.walker.walk.cpu ≡ 1) }
    ensures keeper { IsKeeperOf pages.now keeper.new }
    ensures door { IsAdmitted keeper.new.holder.watch 0 × (keeper.new.holder.watch.request ≡ 0) }
    ensures low { current keeper.new.holder.watch 0 ≤ 1 }
    ensures zero { IsEntered pages.now zero.new 0 [] }
    ensures one { IsEntered pages.now one.new 1 [] }
{
    assert!(rt; keeper.may_bind(0));
    assert!(rt; pages.bind(keeper, 0, page).is_zero());
    assert!(rt; enters_first_binding(pages, zero) && enters_first_binding(pages, one));
}

// Touches the page by both passes, the last time after its door was closed.
fn touches(rt: &impl Abort, pages: &LivePages, keeper: &mut Keeper, zero: &mut Pass, one: &mut Pass)
    requires keeper { IsKeeperOf pages.now keeper.old × (pages.now.frames ≡ 1) }
    requires door { IsAdmitted keeper.old.holder.watch 0 × (keeper.old.holder.watch.request ≡ 0) }
    requires low { current keeper.old.holder.watch 0 ≤ 1 }
    requires zero { IsEntered pages.now zero.old 0 [] }
    requires one { IsEntered pages.now one.old 1 [] }
    ensures keeper { IsKeeperOf pages.now keeper.new × (keeper.new.holder.watch.request ≡ 0) }
    ensures low { current keeper.new.holder.watch 0 ≤ 1 }
    ensures zero { IsEntered pages.now zero.new 0 (puts ∷ adds ∷ []) }
    ensures one { IsEntered pages.now one.new 1 (reads ∷ []) }
{
    let five = Word::new(5).expect(rt, "a word");
    let seven = Word::new(7).expect(rt, "a word");
    let sum = answered(0, five);
    assert!(rt; touches_as_expected(pages, zero, Touch::Add(3, five), sum));
    let read = answered(1, five);
    assert!(rt; touches_as_expected(pages, one, Touch::Get(3), read));
    pages.close_door(keeper, 0);
    let put = answered(2, seven);
    assert!(rt; touches_as_expected(pages, zero, Touch::Put(3, seven), put));
}

// The page that was taken out has the last word that was put, and nothing else.
fn has_seven_alone(used: &mut Page) -> bool {
    let has_seven = Some(used.get(3)) == Word::new(7);
    used.set(3, Word::ZERO);
    has_seven && used.is_zero()
}

// Raises the first stamp, which both passes acknowledge.
fn clears(pages: &LivePages, keeper: &mut Keeper, zero: &mut Pass, one: &mut Pass) -> bool
    requires keeper { IsKeeperOf pages.now keeper.old × (pages.now.frames ≡ 1) }
    requires fresh { keeper.old.holder.watch.request ≡ 0 }
    requires low { current keeper.old.holder.watch 0 ≤ 1 }
    requires passes { IsPassOf pages.now zero.old × IsPassOf pages.now one.old }
    ensures keeper { IsKeeperOf pages.now keeper.new }
    ensures low { current keeper.new.holder.watch 0 ≤ 1 }
    ensures zero { IsSame pages.now zero.old zero.new }
    ensures one { IsSame pages.now one.old one.new }
{
    let touched = zero.touches() == 2 && one.touches() == 1;
    let raised = pages.raise(keeper) == 1 && keeper.last_stamp() == 1;
    let is_bound = keeper.binding(0) == 1 && !keeper.may_bind(0);
    let zero_rested = pages.rest(zero) == 1;
    let one_rested = pages.rest(one) == 1;
    let clear = pages.all_clear(keeper, 1) == Ok(());
    touched && raised && is_bound && zero_rested && one_rested && clear
}

// Binds the frame anew, which the pass enters.
fn binds_anew(pages: &LivePages, keeper: &mut Keeper, pass: &mut Pass, next: Page) -> bool
    requires keeper { IsKeeperOf pages.now keeper.old × (pages.now.frames ≡ 1) }
    requires low { current keeper.old.holder.watch 0 ≤ 1 }
    requires pass { IsPassOf pages.now pass.old }
    ensures keeper { IsKeeperOf pages.now keeper.new }
    ensures pass { IsSame pages.now pass.old pass.new }
{
    if !keeper.may_bind(0) {
        return false;
    }
    has_seven_alone(&mut pages.bind(keeper, 0, next)) && pages.fill(pass, 0) == Ok(2)
}

#[test]
fn binds_touches_and_binds_anew(rt: HostRuntime) -> Result<(), NoMemory> {
    let page = Page::zero(rt.alloc())?;
    let next = Page::zero(rt.alloc())?;
    let (pages, mut keeper, passes) = LivePages::new(rt.alloc(), 1, 2)?;
    let (mut zero, mut one) = first_two(&pages, passes).expect(&rt, "two passes");
    binds(&rt, &pages, &mut keeper, &mut zero, &mut one, page);
    touches(&rt, &pages, &mut keeper, &mut zero, &mut one);
    let cleared = clears(&pages, &mut keeper, &mut zero, &mut one);
    let is_bound = binds_anew(&pages, &mut keeper, &mut zero, next);
    let ended = close_row(rt.alloc(), pages, keeper, zero, one).expect(&rt, "a row of two");
    let is_zero = ended.pages.len() == 1 && ended.pages[0].is_zero();
    drop(ended);
    assert!(&rt; cleared && is_bound && is_zero);
    Ok(())
}
