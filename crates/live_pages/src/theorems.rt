//! The laws of pages behind doors. Each function is its contract, and has no code.
ghost use Rattle.live_pages.specs.Ending.{AllInIsLegal};
ghost use Rattle.live_pages.specs.Kept.{EntryIsCurrent, MayBindHasNoHolder};

/// Wherever the rule holds, and the keeper has taken every pass in, all is as one thread would have it that made all
/// touches in order of ticket: the tickets are the numbers from 0 on, each once; each touch's word is that of its
/// binding's page at that moment; each processor's touches are its own, in order; and each page that was handed out or
/// is in its slot is the one that its binding was given after that binding's touches. Source: own.
pub fn all_in_is_legal()
    ensures { AllInIsLegal }
{}

/// Wherever the rule holds, the binding that a pass's entry names is the frame's. Source: own.
pub fn entry_is_current()
    ensures { EntryIsCurrent }
{}

/// Wherever the rule holds, no pass holds an entry of a frame of which `Keeper::may_bind` is true. Source: own.
pub fn may_bind_has_no_holder()
    ensures { MayBindHasNoHolder }
{}
