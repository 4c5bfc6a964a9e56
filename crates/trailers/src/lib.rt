//! The trailers of the active segment table: from each active segment back to every descriptor that uses its page
//! table, so that all of them can be cut when the segment changes or goes.
#![tactic(auto)]

ghost use Rattle.std.specs.Prelude.{◌≡◌, ◌<◌, ◌≤◌, ◌++◌, ◌∷◌, [], Some, IsSome, length, replicate, slice_get, IfOk};
ghost use Rattle.std.specs.Prelude.{Contains};
ghost use Rattle.trailers.specs.Trailer.{trailers_of, place_in, without_trailer, connected, cut_off};

use arrayvec::ArrayVec;
pub use no_memory::NoMemory;
use std::alloc::Global;
use std::marker::Model;

/// The most descriptors that one segment has at a time: one for each process.
pub const MOST: usize = 32;

/// The descriptors that use one page table, in the order in which they were connected.
#[derive(Drop)]
struct Connections {
    trailers: ArrayVec<(u32, u32), 32>,
}

impl Model for Connections {
    ghost use Rattle.std.specs.Prelude.{ℕ, List, length, ◌≤◌};

    ghost Value = { List (ℕ × ℕ) };

    ghost view = { λ c. c.trailers.items };

    ghost invariant = { λ c. length c.trailers.items ≤ 32 };
}

impl Connections {
    fn new() -> Self
        ensures { result ≡ [] }
    {
        Connections {
            trailers: ArrayVec::new(),
        }
    }

    fn add(&mut self, process: u32, number: u32)
        requires { length self.old < 32 }
        ensures { self.new ≡ self.old ++ (process, number) ∷ [] }
    {
        self.trailers.push((process, number));
    }

    fn remove(&mut self, process: u32, number: u32)
        requires { IsSome (place_in self.old process number) }
        ensures { self.new ≡ without_trailer self.old process number }
    {
        let Some(place) = place_of(&self.trailers, process, number) else {
            unreachable!();
        };
        self.trailers.remove(place);
    }

    fn count(&self) -> u32
        ensures count { result ≡ length self.now }
        ensures most { result ≤ 32 }
    {
        self.trailers.len() as u32
    }

    fn at(&self, i: u32) -> (u32, u32)
        requires { i < length self.now }
        ensures { slice_get self.now i ≡ Some result }
    {
        self.trailers[i as usize]
    }
}

/// Where the trailer of a descriptor stands.
fn place_of(trailers: &[(u32, u32)], process: u32, number: u32) -> Option<usize>
    ensures { result ≡ place_in trailers.now process number }
{
    trailers
        .iter()
        .position(|trailer| trailer.0 == process && trailer.1 == number)
}

/// The trailers of all active segments (Bensoussan, Clingen and Daley 1972).
///
/// Contracts see, for each place of the active segment table, the list of the descriptors that use its page table,
/// each as a process and a segment number, in the order in which they were connected.
#[derive(Drop)]
pub struct Trailers {
    places: Vec<Connections>,
}

impl Model for Trailers {
    ghost use Rattle.std.specs.Prelude.{ℕ, List};

    ghost Value = { List (List (ℕ × ℕ)) };

    ghost view = { λ t. t.places.items };
}

impl Trailers {
    /// No trailers for `entries` places of the active segment table.
    ///
    /// Answers `NoMemory` where their lists can't be had. No later call takes memory.
    pub fn new(alloc: Global, entries: u32) -> Result<Trailers, NoMemory>
        ensures { IfOk result (λ trailers. trailers ≡ replicate entries []) }
    {
        let mut places = Vec::with_capacity(alloc, entries as usize)?;
        for _entry in 0..entries {
            places.push_reserved(Connections::new());
        }
        Ok(Trailers { places })
    }

    /// Notes at the end of the list of place `aste` that number `number` of `process` is connected to its page
    /// table. Costs one write.
    pub fn add(&mut self, aste: u32, process: u32, number: u32)
        requires place { aste < length self.old }
        requires room { length (trailers_of self.old aste) < 32 }
        ensures { self.new ≡ connected self.old aste process number }
    {
        self.places[aste as usize].add(process, number);
    }

    /// Takes the trailer of that descriptor out of the list of place `aste`; the others keep their order.
    ///
    /// Costs a pass over the list.
    pub fn remove(&mut self, aste: u32, process: u32, number: u32)
        requires place { aste < length self.old }
        requires there { Contains (trailers_of self.old aste) (process, number) }
        ensures { self.new ≡ cut_off self.old aste process number }
    {
        self.places[aste as usize].remove(process, number);
    }

    /// How many descriptors use the page table of place `aste`. Costs one look.
    pub fn count(&self, aste: u32) -> u32
        requires place { aste < length self.now }
        ensures count { result ≡ length (trailers_of self.now aste) }
        ensures most { result ≤ 32 }
    {
        self.places[aste as usize].count()
    }

    /// The process and the segment number of trailer `i` of place `aste`, the oldest being 0. Costs one look.
    pub fn at(&self, aste: u32, i: u32) -> (u32, u32)
        requires place { aste < length self.now }
        requires there { i < length (trailers_of self.now aste) }
        ensures { slice_get (trailers_of self.now aste) i ≡ Some result }
    {
        self.places[aste as usize].at(i)
    }
}
