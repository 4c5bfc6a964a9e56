use bulk_store::{BulkStore, NoMemory};
use mword::{Page, Word};
use std::alloc::Global;
use volumes::{CoreDrive, Drive, FailLine};

/// A fast store before a disk, both in core.
type Store = BulkStore<CoreDrive, CoreDrive>;

/// A call of a drive: a write of a page whose first word is given to a record, or a read of a record that should have
/// such a page.
#[derive(Clone, Copy)]
enum Call {
    Write(u32, u64),
    Read(u32, u64),
}

use Call::{Read, Write};

/// How a call ended.
#[derive(Clone, Copy, PartialEq, Eq)]
enum End {
    Done,
    Failed,
    OtherPage,
}

use End::{Done, Failed};

/// The end of a call that was done, or wasn't.
fn end_if(done: bool) -> End {
    if done { Done } else { Failed }
}

/// Writes a page whose first word is this.
fn end_of_write(store: &mut Store, r: u32, first: u64, page: &mut Page) -> End {
    page.set(0, Word::new(first).unwrap_or(Word::ZERO));
    end_if(r < store.size() && store.write_page(r, page).is_ok())
}

/// Reads a page, whose first word should be this.
fn end_of_read(store: &mut Store, r: u32, first: u64, page: &mut Page) -> End {
    let done = r < store.size() && store.read_page(r, page).is_ok();
    if done && page.get(0).value() != first {
        return End::OtherPage;
    }
    end_if(done)
}

/// Makes the call.
fn end_of(store: &mut Store, call: Call, page: &mut Page) -> End {
    match call {
        Write(r, first) => end_of_write(store, r, first, page),
        Read(r, first) => end_of_read(store, r, first, page),
    }
}

/// Whether each call ends as told.
fn end_as_told(store: &mut Store, calls: &[(Call, End)], page: &mut Page) -> bool {
    for (call, end) in calls {
        if end_of(store, *call, page) != *end {
            return false;
        }
    }
    true
}

/// A line that names no call.
const NONE: FailLine = FailLine {
    write: false,
    number: 0,
    onward: false,
};

/// The line that names the first read.
const FIRST_READ: FailLine = FailLine {
    write: false,
    number: 1,
    onward: false,
};

/// The line that names one write.
fn nth_write(number: u32) -> FailLine {
    FailLine {
        write: true,
        number,
        onward: false,
    }
}

/// A store with so many places before 16 records, and the calls of its two drives that fail.
#[derive(Clone, Copy)]
struct Plan {
    places: u32,
    fast: FailLine,
    disk: FailLine,
}

/// A drive of so many records, of which a call may fail.
fn drive(alloc: Global, records: u32, line: FailLine) -> Result<CoreDrive, NoMemory> {
    let lines = vec![in alloc; line]?;
    CoreDrive::new(alloc, records, lines)
}

/// The store of a plan with at least one place.
fn store_of(alloc: Global, plan: Plan) -> Result<Store, NoMemory> {
    let fast = drive(alloc, plan.places, plan.fast)?;
    if fast.size() == 0 {
        return Err(NoMemory);
    }
    BulkStore::new(alloc, fast, drive(alloc, 16, plan.disk)?)
}

/// The reads and writes of a fast store, and those of its disk.
type Counts = ((u64, u64), (u64, u64));

/// Whether the calls of the store of a plan end as told, with so many reads and writes of its drives.
fn runs_as_told(
    alloc: Global,
    plan: Plan,
    calls: &[(Call, End)],
    counts: Counts,
) -> Result<bool, NoMemory> {
    let mut page = Page::zero(alloc)?;
    let mut store = store_of(alloc, plan)?;
    let is_told = end_as_told(&mut store, calls, &mut page);
    let is_counted = (store.fast().calls(), store.disk().calls()) == counts;
    drop(store);
    drop(page);
    Ok(is_told && is_counted)
}

/// A plan in which no call of the fast store fails.
fn sure(places: u32, disk: FailLine) -> Plan {
    Plan {
        places,
        fast: NONE,
        disk,
    }
}

/// A plan with one place, in which no call of the disk fails.
fn single(fast: FailLine) -> Plan {
    Plan {
        places: 1,
        fast,
        disk: NONE,
    }
}

/// What a machine of four frames asks of its drive where six pages are written and the first is read again: the pages
/// that leave, the one that comes, and at the end those that are left. Then each is read back.
const SIX_PAGES: [(Call, End); 13] = [
    (Write(0, 10), Done),
    (Write(1, 11), Done),
    (Write(2, 12), Done),
    (Read(0, 10), Done),
    (Write(4, 14), Done),
    (Write(5, 15), Done),
    (Write(3, 13), Done),
    (Read(0, 10), Done),
    (Read(1, 11), Done),
    (Read(2, 12), Done),
    (Read(3, 13), Done),
    (Read(4, 14), Done),
    (Read(5, 15), Done),
];

#[test]
fn the_same_pages_are_read_back_with_any_number_of_places(rt: HostRuntime) -> Result<(), NoMemory> {
    for (places, counts) in [
        (1, ((6, 6), (6, 5))),
        (2, ((6, 6), (5, 4))),
        (8, ((7, 6), (0, 0))),
    ] {
        assert!(rt; runs_as_told(rt.alloc(), sure(places, NONE), &SIX_PAGES, counts)?);
    }
    Ok(())
}

/// What a machine of four frames asks of its drive where a page's first way out fails with one place: so with one place
/// the second write ends, with two the third, and with eight none.
fn five_pages(second: End, third: End) -> [(Call, End); 7] {
    [
        (Write(0, 10), Done),
        (Write(1, 11), second),
        (Write(2, 12), third),
        (Read(0, 10), Done),
        (Write(4, 14), Done),
        (Write(1, 11), Done),
        (Write(3, 13), Done),
    ]
}

#[test]
fn a_write_fails_where_the_disk_fails_to_take_the_oldest(rt: HostRuntime) -> Result<(), NoMemory> {
    for (places, second, third, counts) in [
        (1, Failed, Done, ((5, 5), (1, 5))),
        (2, Done, Failed, ((4, 5), (0, 3))),
        (8, Done, Done, ((1, 6), (0, 0))),
    ] {
        let plan = sure(places, nth_write(1));
        assert!(rt; runs_as_told(rt.alloc(), plan, &five_pages(second, third), counts)?);
    }
    Ok(())
}

/// One place: the second write of the fast store fails, when the oldest is out; the third is done in its place.
const OLDEST_OUT: [(Call, End); 6] = [
    (Write(0, 10), Done),
    (Write(1, 11), Failed),
    (Read(0, 10), Done),
    (Read(1, 0), Done),
    (Write(1, 11), Done),
    (Read(1, 11), Done),
];

/// One place: the first read of the fast store fails, and all is as before.
const OLDEST_STAYS: [(Call, End); 4] = [
    (Write(0, 10), Done),
    (Write(1, 11), Failed),
    (Read(0, 10), Done),
    (Read(1, 0), Done),
];

/// A read of the disk that fails, and the next one.
const READ_AGAIN: [(Call, End); 2] = [(Read(5, 0), Failed), (Read(5, 0), Done)];

#[test]
fn no_page_is_lost_and_no_call_made_again_where_one_fails(rt: HostRuntime) -> Result<(), NoMemory> {
    for (plan, calls, counts) in [
        (
            single(nth_write(2)),
            OLDEST_OUT.as_slice(),
            ((2, 3), (2, 1)),
        ),
        (
            single(FIRST_READ),
            OLDEST_STAYS.as_slice(),
            ((2, 1), (1, 0)),
        ),
        (sure(2, FIRST_READ), READ_AGAIN.as_slice(), ((0, 0), (2, 0))),
    ] {
        assert!(rt; runs_as_told(rt.alloc(), plan, calls, counts)?);
    }
    Ok(())
}
