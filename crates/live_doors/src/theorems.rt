//! The laws of revocation. Each function is its contract, and has no code.
ghost use Rattle.live_doors.specs.Kept.{NotedIsClear, NeverBoundHasNoHolder, MayBindHasNoHolder};

/// Wherever the rule holds of words and views, and the keeper has noted from each processor an acknowledgement of at
/// least a stamp, no pass holds an entry of a frame that was closed before that stamp was raised and not bound since.
/// `LiveDoors::all_clear` ensures at Ok that its keeper has noted these. Source: own.
pub fn noted_is_clear()
    ensures { NotedIsClear }
{}

/// Wherever the rule holds, no pass holds an entry of a frame that was never bound. Source: own.
pub fn never_bound_has_no_holder()
    ensures { NeverBoundHasNoHolder }
{}

/// Wherever the rule holds, no pass holds an entry of a frame of which `Keeper::may_bind` is true. Source: own.
pub fn may_bind_has_no_holder()
    ensures { MayBindHasNoHolder }
{}
