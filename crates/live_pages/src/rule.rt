//! The rule of the table, and what each kind of step tells the seat that makes it.
//! The words are those of the doors (the request, a door for each frame, an acknowledgement for each processor), then a
//! turn for each frame and the number of tickets that were drawn. Slot f has the page of frame f.
ghost use Rattle.std.specs.Prelude.{◌≡◌, ◌<◌};
ghost use Rattle.live_pages.specs.Touches.{touched, answer, place_of};

use crate::touch::Touch;
use crate::views::View;
use atomic_table::{Join, Play, Seat, Split, Table, TableRule};
use mword::{Page, Word};
use std::alloc::Global;
use std::mem;

/// How many frames and processors there are.
#[derive(Clone, Copy)]
pub struct Size {
    pub frames: u32,
    pub cpus: u32,
}

/// What a slot has: the page of its frame, and the touch that was made last, with its word.
#[derive(Drop)]
pub struct Held {
    pub page: Page,
    pub touch: Touch,
    pub word: Word,
}

impl Held {
    // Touches the page, and keeps the touch and its word beside it.
    pub(crate) fn touch(&mut self, t: Touch) -> Word
        requires { place_of t < 1024 }
        ensures word { result ≡ answer t self.old.page }
        ensures page { self.new.page ≡ touched t self.old.page }
        ensures kept { (self.new.touch ≡ t) × (self.new.word ≡ result) }
    {
        let word = t.apply(&mut self.page);
        self.touch = t;
        self.word = word;
        word
    }

    // Puts another page in its place, and answers it.
    pub(crate) fn swap(&mut self, page: Page) -> Page
        ensures old { result ≡ self.old.page }
        ensures new { self.new.page ≡ page }
    {
        mem::replace(&mut self.page, page)
    }
}

/// The rule over words, slots and views, by which each page is that of its frame's binding after its touches.
pub struct Frames;

impl TableRule<Option<Held>, View, Size> for Frames {
    ghost use Rattle.live_pages.specs.Kept.{Kept};
    ghost use Rattle.live_pages.specs.Turns.{first_holder};
    ghost use Rattle.live_pages.specs.declared.views.View.TheVariants.{Keeping};

    ghost holds = { λ z s. Kept z s.words s.homes s.views };

    ghost first = { λ z. Keeping (first_holder z.frames z.cpus) };
}

pub(crate) type Board = Table<Option<Held>, View, Size, Frames, Global>;

pub(crate) type Place = Seat<Option<Held>, View>;

/// The load of a door.
pub(crate) struct Fill;

impl Play<Option<Held>, View> for Fill {
    ghost use Rattle.live_pages.specs.Turns.{Fills};

    ghost then = { Fills };
}

/// The load of the request word.
pub(crate) struct Forget;

impl Play<Option<Held>, View> for Forget {
    ghost use Rattle.live_pages.specs.Turns.{Forgets};

    ghost then = { Forgets };
}

/// The store of a processor's own word.
pub(crate) struct Acknowledge;

impl Play<Option<Held>, View> for Acknowledge {
    ghost use Rattle.live_pages.specs.Turns.{Acknowledges};

    ghost then = { Acknowledges };
}

/// The store of a door, odd.
pub(crate) struct CloseDoor;

impl Play<Option<Held>, View> for CloseDoor {
    ghost use Rattle.live_pages.specs.Turns.{Closes};

    ghost then = { Closes };
}

/// The store of the request word.
pub(crate) struct Raise;

impl Play<Option<Held>, View> for Raise {
    ghost use Rattle.live_pages.specs.Turns.{Raises};

    ghost then = { Raises };
}

/// The load of an acknowledgement.
pub(crate) struct Look;

impl Play<Option<Held>, View> for Look {
    ghost use Rattle.live_pages.specs.Turns.{Looks};

    ghost then = { Looks };
}

/// The compare and exchange of a turn by a pass.
pub(crate) struct Take;

impl Play<Option<Held>, View> for Take {
    ghost use Rattle.live_pages.specs.Turns.{Takes};

    ghost then = { Takes };
}

/// The fetch and add of the tickets.
pub(crate) struct Draw;

impl Play<Option<Held>, View> for Draw {
    ghost use Rattle.live_pages.specs.Turns.{Draws};

    ghost then = { Draws };
}

/// The store of a turn by a pass.
pub(crate) struct Give;

impl Play<Option<Held>, View> for Give {
    ghost use Rattle.live_pages.specs.Turns.{Gives};

    ghost then = { Gives };
}

/// The compare and exchange of a turn by the keeper.
pub(crate) struct KeeperTake;

impl Play<Option<Held>, View> for KeeperTake {
    ghost use Rattle.live_pages.specs.Turns.{KeeperTakes};

    ghost then = { KeeperTakes };
}

/// The store of a door, even.
pub(crate) struct Bind;

impl Play<Option<Held>, View> for Bind {
    ghost use Rattle.live_pages.specs.Turns.{Binds};

    ghost then = { Binds };
}

/// The store of a turn by the keeper.
pub(crate) struct KeeperGive;

impl Play<Option<Held>, View> for KeeperGive {
    ghost use Rattle.live_pages.specs.Turns.{KeeperGives};

    ghost then = { KeeperGives };
}

/// The keeper makes the pass of the next processor.
pub(crate) struct Admit;

impl Split<View> for Admit {
    ghost use Rattle.live_pages.specs.Turns.{keeper_with_pass, pass_of_keeper};

    ghost left = { keeper_with_pass };

    ghost right = { pass_of_keeper };
}

/// The keeper takes a pass in, with its touches.
pub(crate) struct TakeIn;

impl Join<View> for TakeIn {
    ghost use Rattle.live_pages.specs.Turns.{taken_in};
    ghost use Rattle.live_pages.specs.Turns.{first_holder};
    ghost use Rattle.live_pages.specs.declared.views.View.TheVariants.{Spent};

    ghost both = { taken_in };

    ghost spent = { Spent (first_holder 0 0) };
}

/// The keeper leaves a seat that shows what it knows.
pub(crate) struct Show;

impl Split<View> for Show {
    ghost use Rattle.live_pages.specs.Turns.{shown};

    ghost left = { λ v. v };

    ghost right = { shown };
}
