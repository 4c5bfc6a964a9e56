//! The choice of the segment that has to go where a pool is full.

ghost use Rattle.std.specs.Prelude.{◌≡◌, ◌<◌, ◌≤◌, ◌++◌, Some, IsSome, length};
ghost use Rattle.active_segs.specs.Active.{IsGrounded};
ghost use Rattle.active_segs.specs.Kept.{AreNoted, IsActiveAt};
ghost use Rattle.active_segs.specs.Victim.{leaf_below, off_chain, first_of_places, offset_after, places_from};
ghost use Rattle.active_segs.specs.Victim.{StandsFor};

use crate::Entry;
use bitmap::Bitmap;

/// Whether something is active here that isn't in the chain.
fn is_off_chain(entry: &Option<Entry>, chain: &[u32]) -> bool
    ensures { result ≡ off_chain chain.now entry.now }
{
    match entry {
        Some(entry) => !chain.contains(&entry.uid),
        None => false,
    }
}

/// The first place from one up to another where something is active that isn't in the chain.
fn first_off_chain(entries: &[Option<Entry>], chain: &[u32], from: u32, to: u32) -> Option<u32>
    requires { to ≤ length entries.now }
    ensures { result ≡ first_of_places entries.now chain.now (places_from from to) }
{
    for place in from..to {
        if is_off_chain(&entries[place as usize], chain) {
            return Some(place);
        }
    }
    None
}

/// The first such place from the hand on, round a pool.
pub(crate) fn find_from_hand(
    entries: &[Option<Entry>],
    chain: &[u32],
    first: u32,
    hand: u32,
    end: u32,
) -> u32
    requires within { end ≤ length entries.now }
    requires hand { hand ≤ end }
    requires some { IsSome (first_of_places entries.now chain.now (places_from hand end ++ places_from first hand)) }
    ensures { first_of_places entries.now chain.now (places_from hand end ++ places_from first hand) ≡ Some result }
{
    if let Some(place) = first_off_chain(entries, chain, hand, end) {
        return place;
    }
    match first_off_chain(entries, chain, first, hand) {
        Some(place) => place,
        None => unreachable!(),
    }
}

/// The leaf that takes a place's stead: while a segment has an active inferior, the least one takes its stead.
pub(crate) fn leaf_below(entries: &[Option<Entry>], inferiors: &[Bitmap], found: u32) -> u32
    requires noted { AreNoted entries.now inferiors.now }
    requires grounded { IsGrounded entries.now }
    requires active { IsActiveAt entries.now found }
    ensures stands { StandsFor entries.now found result }
    ensures is { result ≡ leaf_below entries.now (length entries.now) found }
{
    let mut place = found;
    for _step in 0..entries.len() {
        match inferiors[place as usize].first_free() {
            Some(inferior) => place = inferior,
            None => return place,
        }
    }
    unreachable!()
}

/// Where a hand stands after it has passed an offset of its pool.
pub(crate) fn offset_after(size: u32, offset: u32) -> u32
    requires { offset < size }
    ensures { result ≡ offset_after size offset }
{
    if offset + 1 == size { 0 } else { offset + 1 }
}
