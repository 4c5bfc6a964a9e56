//! The rule of the table, and what each kind of step tells the seat that makes it.
//! Word 0 is the stamp that was raised last, then comes a door for each frame, then an acknowledgement for each
//! processor.
use crate::views::View;
use atomic_table::{Join, Play, Seat, Split, Table, TableRule};
use std::alloc::Global;

/// The most processors that share doors. (Source: own.)
pub const MOST_CPUS: usize = 8;

/// How many frames and processors there are, and the word with which every door begins.
#[derive(Clone, Copy)]
pub struct Size {
    pub frames: u32,
    pub cpus: u32,
    pub door: u64,
}

/// The rule over words and views, by which an entry that a pass holds is one that its door admits, or that no stamp
/// which its processor has acknowledged was raised to revoke.
pub struct Revocation;

impl TableRule<(), View, Size> for Revocation {
    ghost use Rattle.live_doors.specs.Kept.{Kept};
    ghost use Rattle.live_doors.specs.Doors.{first_watch};
    ghost use Rattle.live_doors.specs.declared.views.View.TheVariants.{Keeping};

    ghost holds = { λ z s. Kept z s.words s.views };

    ghost first = { λ z. Keeping (first_watch z.frames z.cpus z.door) };
}

pub(crate) type Board = Table<(), View, Size, Revocation, Global>;

pub(crate) type Place = Seat<(), View>;

/// The load of a door.
pub(crate) struct Fill;

impl Play<(), View> for Fill {
    ghost use Rattle.live_doors.specs.Steps.{Fills};

    ghost then = { Fills };
}

/// The load of the request word.
pub(crate) struct Forget;

impl Play<(), View> for Forget {
    ghost use Rattle.live_doors.specs.Steps.{Forgets};

    ghost then = { Forgets };
}

/// The store of a processor's own word.
pub(crate) struct Acknowledge;

impl Play<(), View> for Acknowledge {
    ghost use Rattle.live_doors.specs.Steps.{Acknowledges};

    ghost then = { Acknowledges };
}

/// The store of a door.
pub(crate) struct CloseDoor;

impl Play<(), View> for CloseDoor {
    ghost use Rattle.live_doors.specs.Steps.{Closes};

    ghost then = { Closes };
}

/// The store of the request word.
pub(crate) struct Raise;

impl Play<(), View> for Raise {
    ghost use Rattle.live_doors.specs.Steps.{Raises};

    ghost then = { Raises };
}

/// The load of an acknowledgement.
pub(crate) struct Look;

impl Play<(), View> for Look {
    ghost use Rattle.live_doors.specs.Steps.{Looks};

    ghost then = { Looks };
}

/// The keeper makes the pass of the next processor.
pub(crate) struct Admit;

impl Split<View> for Admit {
    ghost use Rattle.live_doors.specs.Steps.{keeper_with_pass, pass_of_keeper};

    ghost left = { keeper_with_pass };

    ghost right = { pass_of_keeper };
}

/// The keeper takes a pass in.
pub(crate) struct TakeIn;

impl Join<View> for TakeIn {
    ghost use Rattle.live_doors.specs.declared.views.View.TheVariants.{Spent};

    ghost both = { λ v w. v };

    ghost spent = { Spent };
}
