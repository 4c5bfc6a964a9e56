ghost use Rattle.std.specs.Prelude.{◌≡◌, ◌<◌, ◌^◌, ◌-◌, ℕ, List, Option, length, slice_set, slice_index_or, None};
ghost use Rattle.std.specs.Prelude.{◌↔◌, ◌==◌, IsTrue};
ghost use Rattle.std.specs.List.{list_all};
ghost use Rattle.std.specs.Option.{ForSome};
ghost use Rattle.vtoc.specs.FileMap.{no_records, record_of};

use std::marker::Model;

/// The code of a place that names no record.
const NO_RECORD: u16 = u16::MAX;

/// How many pages a segment has at most.
const PAGES: usize = 256;

/// For each page of a segment the record that it is on, or none, seen as the list of these. It takes 512 bytes.
#[derive(Drop)]
pub struct FileMap {
    codes: [u16; PAGES],
}

impl Model for FileMap {
    ghost use Rattle.std.specs.Prelude.{List, Option, ℕ};
    ghost use Rattle.vtoc.specs.FileMap.{records_of};

    ghost Value = { List (Option ℕ) };

    ghost view = { λ map. records_of map.codes };
}

impl FileMap {
    /// A map that names no record.
    pub fn new() -> FileMap
        ensures { result ≡ no_records }
    {
        FileMap {
            codes: [NO_RECORD; PAGES],
        }
    }

    /// The record of page `p`.
    pub fn get(&self, p: u32) -> Option<u32>
        requires { p < 256 }
        ensures { result ≡ slice_index_or self.now p None }
    {
        let code = self.codes[p as usize];
        if code == NO_RECORD {
            None
        } else {
            Some(u32::from(code))
        }
    }

    /// Whether it names no record. It looks at all places, several at once.
    pub fn names_none(&self) -> bool
        ensures { IsTrue result ↔ ((p : ℕ) → slice_index_or self.now p None ≡ None) }
    {
        name_no_record(&self.codes)
    }

    /// Names `r` as the record of page `p`.
    pub fn put(&mut self, p: u32, r: Option<u32>)
        requires page { p < 256 }
        requires record { ForSome r (λ r. r < 2 ^ 16 - 1) }
        ensures { self.new ≡ slice_set self.old p r }
    {
        self.codes[p as usize] = code_of(r);
    }
}

/// The code of a place that names `r`.
fn code_of(r: Option<u32>) -> u16
    requires { ForSome r (λ r. r < 2 ^ 16 - 1) }
    ensures { record_of result ≡ r }
{
    match r {
        Some(record) => record as u16,
        None => NO_RECORD,
    }
}

/// Whether each code names no record.
#[tactic(auto, using(std::proofs::lemmas::Grind::common_steps))]
fn name_no_record(codes: &[u16; PAGES]) -> bool
    ensures { result ≡ list_all (λ code. code == 65535) codes.now }
{
    let mut none = true;
    for p in 0..PAGES {
        none &= codes[p] == NO_RECORD;
    }
    none
}
