//! Why custody doesn't allow an entry of a book: the first condition that doesn't hold, as a sentence of what was
//! before the entry (Bensoussan, Clingen and Daley 1972; the sentences are own).
//!
//! `why_not` names the reason, and `is_still_so` says whether its sentence is true in another state.
#![tactic(auto)]

mod judging;
mod reasons;
mod row_commands;
mod row_descriptors;
mod row_effects;
mod row_frames;
mod row_seats;
mod row_segments;
mod row_signals;
mod seeking;
mod sentences;
mod texts;

pub use judging::why_not;
pub use reasons::{
    Absent, ActiveReason, CommandAt, CommandReason, CommandWord, DescriptorAt, DescriptorReason,
    EffectReason, FrameReason, Held, Loss, PageOf, ReadyReason, Reason, SeatReason, Taker,
};
pub use sentences::is_still_so;
