ghost use Rattle.std.specs.Prelude.{◌≡◌, ◌<◌, is_some, true, slice_set, IsSome};
ghost use Rattle.known_segs.specs.Known.{least_free, number_for, uid_of, with_number, without_number};
ghost use Rattle.flat_store.specs.Shown.{numbers_at};

use known_segs::{Kst, NUMBERS};

/// The least number that stands for nothing.
fn least_free(kst: &Kst) -> Option<u32>
    ensures { result ≡ least_free kst.now }
{
    kst.promise();
    for number in 0..NUMBERS as u32 {
        if kst.uid_of(number).is_none() {
            return Some(number);
        }
    }
    None
}

/// The uid that a number of a process stands for. `None` from number 256 on.
pub(crate) fn uid_of(known: &[Kst], process: u32, number: u32) -> Option<u32>
    ensures uid { result ≡ uid_of (numbers_at known.now process) number }
    ensures within { IsSome result → number < 256 }
{
    match known.get(process as usize) {
        Some(kst) => kst.uid_of(number),
        None => None,
    }
}

/// The number by which a process knows a segment, or would know it.
pub(crate) fn number_for(known: &[Kst], process: u32, uid: u32) -> Option<u32>
    ensures { result ≡ number_for (numbers_at known.now process) uid }
{
    let kst = known.get(process as usize)?;
    match kst.number_of(uid) {
        Some(number) => Some(number),
        None => least_free(kst),
    }
}

/// A process knows a segment from now on, by the number that it has for it, else by the least that is free.
pub(crate) fn make_known(known: &mut Vec<Kst>, process: u32, uid: u32)
    ensures { known.new.items ≡ slice_set known.old.items process
        (with_number (numbers_at known.old.items process) uid (number_for (numbers_at known.old.items process) uid)) }
{
    if let Some(kst) = known.get_mut(process as usize) {
        let _number = kst.make_known(uid);
    }
}

/// A number of a process, which is known, stands for nothing from now on.
pub(crate) fn forget(known: &mut Vec<Kst>, process: u32, number: u32)
    ensures { is_some (uid_of (numbers_at known.old.items process) number) ≡ true
        → known.new.items ≡ slice_set known.old.items process
        (without_number (numbers_at known.old.items process) number) }
{
    if let Some(kst) = known.get_mut(process as usize) {
        if kst.uid_of(number).is_some() {
            kst.forget(number);
        }
    }
}
