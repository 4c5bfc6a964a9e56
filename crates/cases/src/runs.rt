//! Runs of the program, and how each ended and what it wrote.
//!
//! The first line of such a case asks, and what follows is the input, which ends before the line feed of the next case:
//! a blank line there leaves the input its last line feed. Where lines `-- NAME` stand in the input, it is a group:
//! each of them begins a case of the lines before the first and those below it. Where a line `changes` stands in it,
//! each line below that is a case of the input before it, with some of its lines changed: in pieces with ` | ` between
//! them, of which `N` leaves line N out, and `N=TEXT` puts a text in its place, in which `/` stands for a line feed.
//! The line that asks has the program's words, each in brackets, and then these, with `;` between:
//! - `only WORDS` prints but the lines that begin with one of the words;
//! - `words U.OFF ..` prints the words at these places of the segments of these uids, by the flat store after the book;
//! - `calls` prints how often the first volume's disk was read and written;
//! - `reads N M` reads in pieces of N bytes, and the Mth read fails; `unread` has the first read fail;
//! - `room N M` has room for N bytes that are written, and the Mth write fails, or none where M is 0;
//! - `day N` has the script of the day of N for its input;
//! - `hold` holds two processors at certain points, and tells whether each hold took place;
//! - `turns N` holds N processors so that they go in turn, and tells whether they did;
//! - `times N` runs the program N times, and each run must give the same.
//!
//! Without `times` and `reads` the program runs with the input in one piece, in pieces of 1 byte and in pieces of 7.
//! After what a run wrote comes what is told of its book: the pages that the root is charged for, which `times`
//! leaves out, and `accepted and listed` where the flat store and custody accept each entry, each process has ended, no
//! stored page is all zeros, and the text is the listing of the book. Each processor must have passed the gate after
//! each of its steps that the book tells: once where it came online, loaded a process, had a reference answered through
//! a frame, or signalled, in that order; and all together as often as the entries need steps at the least.

mod answers;
mod asking;
mod books;
mod changes;
mod gates;
mod groups;
mod lockstep;
mod passes;

pub(crate) use groups::given;
