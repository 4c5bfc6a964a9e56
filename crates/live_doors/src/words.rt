//! Where the words of the table stand: the request first, then a door for each frame, then an acknowledgement for each
//! processor. `live_pages` has the same words, and more after them.
ghost use Rattle.std.specs.Prelude.{◌≡◌};
ghost use Rattle.live_doors.specs.Steps.{door_at, ack_at};

/// The word of the stamp that was raised last.
pub const REQUEST: usize = 0;

/// The word of frame `f`'s door.
pub fn door_word(f: u32) -> usize
    ensures { result ≡ door_at f }
{
    1 + f as usize
}

/// The word of a processor's acknowledgement, where there are so many frames.
pub fn acknowledgement_word(frames: u32, cpu: u32) -> usize
    ensures { result ≡ ack_at frames cpu }
{
    1 + frames as usize + cpu as usize
}
