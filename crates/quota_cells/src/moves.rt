//! Whether an account would be above its quota once quota has moved, from the numbers before the move.

ghost use Rattle.std.specs.Prelude.{◌≡◌, ◌≤◌, ◌+◌, ◌-◌, ◌==◌, ◌&&◌, not, nat_lt};
ghost use Rattle.quota_cells.specs.Moves.{load_left, load_grown, is_account_over, is_giver_over, refusal_down};
ghost use Rattle.quota_cells.specs.Moves.{refusal_up};

use crate::MoveFault;
use crate::directories::Cell;
use dir_tree::ROOT;

/// The load of a superior whose inferior gets quota: an inferior that was no account takes its own load from it.
fn load_left(below: Cell, above: Cell) -> u32
    requires { below.quota ≡ 0 → below.load ≤ above.load }
    ensures { result ≡ load_left below above }
{
    if below.quota == 0 {
        return above.load - below.load;
    }
    above.load
}

/// The load of a superior that gets so many pages of quota from an inferior, which may keep none.
fn load_grown(below: Cell, above: Cell, pages: u32) -> u64
    requires { pages ≤ below.quota }
    ensures { result ≡ load_grown below above pages }
{
    if below.quota == pages {
        return above.load as u64 + below.load as u64;
    }
    above.load as u64
}

/// Whether the account above a superior that keeps no quota would be above its quota, with what is left to it.
fn is_account_over(below: Cell, above: Cell, account: Cell, pages: u32) -> bool
    requires load { below.quota ≡ 0 → below.load ≤ above.load }
    requires enough { pages ≤ above.quota }
    ensures { result ≡ is_account_over below above account pages }
{
    let left = load_left(below, above);
    above.quota - pages == 0
        && above.uid != ROOT
        && account.load as u64 + left as u64 > account.quota as u64
}

/// Whether a superior that gives so many pages would be an account above what it keeps.
fn is_giver_over(below: Cell, above: Cell, pages: u32) -> bool
    requires load { below.quota ≡ 0 → below.load ≤ above.load }
    requires enough { pages ≤ above.quota }
    ensures { result ≡ is_giver_over below above pages }
{
    let rest = above.quota - pages;
    (above.uid == ROOT || rest > 0) && load_left(below, above) > rest
}

/// Whether a directory with this load that gets so many pages would be above its quota.
fn is_getter_over(load: u64, quota: u32, pages: u32) -> bool
    ensures { result ≡ nat_lt (quota + pages) load }
{
    load > quota as u64 + pages as u64
}

/// Whether a directory that gives so many pages would be an account above what it keeps.
fn is_inferior_over(below: Cell, pages: u32) -> bool
    requires { pages ≤ below.quota }
    ensures { result ≡ (not (below.quota - pages == 0) && nat_lt (below.quota - pages) below.load) }
{
    let rest = below.quota - pages;
    rest > 0 && below.load > rest
}

/// What a move of so many pages down to a directory would be refused for: from the one that it lies in, which itself
/// lies below this account.
pub(crate) fn refusal_down(
    below: Cell,
    above: Cell,
    account: Cell,
    pages: u32,
) -> Result<(), MoveFault>
    requires { below.quota ≡ 0 → below.load ≤ above.load }
    ensures { result ≡ refusal_down below above account pages }
{
    if above.quota < pages {
        return Err(MoveFault::TooLittle);
    }
    if is_account_over(below, above, account, pages) {
        return Err(MoveFault::Over {
            account: account.uid,
        });
    }
    if is_giver_over(below, above, pages) {
        return Err(MoveFault::Over { account: above.uid });
    }
    if is_getter_over(below.load as u64, below.quota, pages) {
        return Err(MoveFault::Over { account: below.uid });
    }
    Ok(())
}

/// What a move of so many pages up from a directory, to the one that it lies in, would be refused for.
pub(crate) fn refusal_up(below: Cell, above: Cell, pages: u32) -> Result<(), MoveFault>
    ensures { result ≡ refusal_up below above pages }
{
    if below.quota < pages {
        return Err(MoveFault::TooLittle);
    }
    if is_getter_over(load_grown(below, above, pages), above.quota, pages) {
        return Err(MoveFault::Over { account: above.uid });
    }
    if is_inferior_over(below, pages) {
        return Err(MoveFault::Over { account: below.uid });
    }
    Ok(())
}
