ghost use Rattle.std.specs.Prelude.{◌≡◌, ◌≤◌, ◌<◌, ◌+◌, ◌^◌, length};
ghost use Rattle.text_model.specs.Lines.{lines_of};
ghost use Rattle.book_check.specs.Inputs.{first_number, listing_lines, script_lines};

use crate::lines::is_book;
use script::next_line;

/// The parts of an input, in place.
#[derive(Drop)]
pub struct Input<'a> {
    /// The lines before the first line `book`: the script.
    pub script: &'a [u8],
    /// Those after it: the listing. It is empty where there is no such line.
    pub listing: &'a [u8],
    /// The number of the listing's first line, counted from 1 at the first line of the script.
    pub first: u32,
}

/// The parts of an input. It looks at the lines of the script alone.
#[tactic(auto, using(text_model::proofs::PartLaws::at_start, std::proofs::lemmas::Grind::common_steps))]
pub fn split_input(bytes: &[u8]) -> Input<'_>
    requires { length bytes.now < 2 ^ 31 }
    ensures script { lines_of result.script.now ≡ script_lines (lines_of bytes.now) }
    ensures listing { lines_of result.listing.now ≡ listing_lines (lines_of bytes.now) }
    ensures first { result.first ≡ first_number (lines_of bytes.now) }
    ensures few { result.first + length result.listing.now ≤ length bytes.now + 1 }
    ensures short { length result.script.now ≤ length bytes.now }
{
    let mut at = 0;
    let mut number: u32 = 1;
    while at < bytes.len() {
        let (line, rest) = next_line(&bytes[at..]);
        number += 1;
        if is_book(line) {
            return Input {
                script: &bytes[..at],
                listing: rest,
                first: number,
            };
        }
        at = bytes.len() - rest.len();
    }
    Input {
        script: bytes,
        listing: &[],
        first: number,
    }
}
