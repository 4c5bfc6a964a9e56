//! Where the active inferiors of each active segment are.
//!
//! Each place has a map of all places, in which the places of its segment's inferiors are free and all others are in
//! use. So the least free number of a map is the place of the least inferior.

ghost use Rattle.std.specs.Prelude.{◌≡◌, true, false, replicate, IfOk, IfSome};
ghost use Rattle.active_segs.specs.Kept.{noted, place_of_superior, HasFlag};

use crate::NoMemory;
use crate::index::Index;
use bitmap::Bitmap;
use std::alloc::Global;

/// A map for each of so many places, none of which has an inferior.
pub(crate) fn no_inferiors(alloc: Global, places: u32) -> Result<Vec<Bitmap>, NoMemory>
    ensures { IfOk result (λ maps. maps.items ≡ replicate places (replicate places true)) }
{
    let mut maps = Vec::with_capacity(alloc, places as usize)?;
    for _place in 0..places {
        maps.push_reserved(Bitmap::all_used(alloc, places)?);
    }
    Ok(maps)
}

/// The place of a superior directory, where there is one.
pub(crate) fn place_of_superior(index: &Index, superior: Option<u32>) -> Option<u32>
    ensures { result ≡ place_of_superior index.now.pairs superior }
{
    match superior {
        Some(uid) => index.find(uid),
        None => None,
    }
}

/// Notes that an inferior of the segment in the place `above`, if there is such a place, is active in `place`.
pub(crate) fn note(inferiors: &mut Vec<Bitmap>, above: Option<u32>, place: u32)
    requires { IfSome above (HasFlag inferiors.old.items place true) }
    ensures { inferiors.new.items ≡ noted inferiors.old.items above place false }
{
    if let Some(above) = above {
        inferiors[above as usize].give_back(place);
    }
}

/// Notes that no inferior of that segment is active in `place` any more.
pub(crate) fn forget(inferiors: &mut Vec<Bitmap>, above: Option<u32>, place: u32)
    requires { IfSome above (HasFlag inferiors.old.items place false) }
    ensures { inferiors.new.items ≡ noted inferiors.old.items above place true }
{
    if let Some(above) = above {
        inferiors[above as usize].take(place);
    }
}
