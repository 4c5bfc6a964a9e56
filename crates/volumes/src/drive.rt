ghost use Rattle.std.specs.Prelude.{◌≡◌, ◌≤◌, ◌<◌, ℕ, List, [], Option, length, slice_index_or, slice_set, OnOk, OnErr};
ghost use Rattle.site_io.specs.Faults.{Rose};

use mword::Page;
use site_io::Failed;

/// A line that names calls of a drive which fail: the read, or the write, of this number, counted from 1, and where
/// `onward` every later one too. (Source: own.)
#[derive(Clone, Copy, PartialEq, Eq)]
pub struct FailLine {
    /// Whether it names writes, and not reads.
    pub write: bool,
    /// The number of the call, counted from 1 among the calls of its kind.
    pub number: u32,
    /// Whether it names every later call too.
    pub onward: bool,
}

/// A drive: a list of pages of 1024 words that can be read and written one at a time (Organick 1972).
///
/// Its meanings are its `pages`; its `faults`, how many of its calls failed, a count that may stop at its end; its
/// `plan`, which is the lines that name failing calls, where these are told; and its `places`, how many pages a fast
/// store before it holds. (Source: own.)
pub trait Drive: Drop {
    ghost use Rattle.volumes.specs.declared.drive.FailLine.{FailLine};
    ghost use Rattle.volumes.specs.FailLine.{HasFewFaults, IsOneMore};
    ghost use Rattle.volumes.specs.FullPages.{HaveFullPages};

    ghost pages: { Self → List (List ℕ) };

    ghost faults: { Self → ℕ };

    ghost plan: { Self → Option (List FailLine) };

    ghost places: { Self → ℕ };

    /// How many pages the drive has.
    fn size(&self) -> u32
        ensures size { result ≡ length (pages self.now) }
        ensures few { HasFewFaults (plan self.now) (faults self.now) }
        ensures full { HaveFullPages (pages self.now) };

    /// Reads page `r` into `to`. After `Failed`, `to` is as before. `faults` counts exactly the calls that fail: it
    /// stays where the page was read, and is one more after `Failed`, where it isn't at its end.
    fn read_page(&mut self, r: u32, to: &mut Page) -> Result<(), Failed>
        requires { r < length (pages self.old) }
        ensures ok { OnOk result (to.new ≡ slice_index_or (pages self.old) r []) }
        ensures err { OnErr result (to.new ≡ to.old) }
        ensures pages { pages self.new ≡ pages self.old }

        // What becomes of the other meanings.
        ensures told { OnOk result (faults self.new ≡ faults self.old) }
        ensures once { OnErr result (IsOneMore (faults self.old) (faults self.new)) }
        ensures rose { OnErr result (Rose (faults self.old) (faults self.new)) }
        ensures grows { faults self.old ≤ faults self.new }
        ensures plan { plan self.new ≡ plan self.old }
        ensures places { places self.new ≡ places self.old }
        ensures few { HasFewFaults (plan self.new) (faults self.new) };

    /// Makes page `r` the page `from`, and leaves the others. After `Failed` no page has changed. `faults` counts
    /// exactly the calls that fail, as with a read.
    fn write_page(&mut self, r: u32, from: &Page) -> Result<(), Failed>
        requires { r < length (pages self.old) }
        ensures ok { OnOk result (pages self.new ≡ slice_set (pages self.old) r from.now) }
        ensures err { OnErr result (pages self.new ≡ pages self.old) }
        ensures full { HaveFullPages (pages self.new) }

        // What becomes of the other meanings.
        ensures told { OnOk result (faults self.new ≡ faults self.old) }
        ensures once { OnErr result (IsOneMore (faults self.old) (faults self.new)) }
        ensures rose { OnErr result (Rose (faults self.old) (faults self.new)) }
        ensures grows { faults self.old ≤ faults self.new }
        ensures plan { plan self.new ≡ plan self.old }
        ensures places { places self.new ≡ places self.old }
        ensures few { HasFewFaults (plan self.new) (faults self.new) };
}
