ghost use Rattle.std.specs.Prelude.{◌≡◌, ◌<◌, ◌^◌, length, slice_get, IfSome, Some};
ghost use Rattle.flat_model.specs.Store.{Store};
ghost use Rattle.flat_store.specs.Shown.{Shows};
ghost use Rattle.text_model.specs.Lines.{lines_of};
ghost use Rattle.script.specs.Plans.{Plan};
ghost use Rattle.line_reasons.specs.Fronts.{same_front};
ghost use Rattle.line_reasons.specs.DueLines.{IsAccountDue, IsDue, IsSoSum};
ghost use Rattle.line_reasons.specs.DueLines.{account_reason, volume_reason, reason_of_line};
ghost use Rattle.line_reasons.specs.DueLines.{reason_of_end};

use crate::parting::{parting, same_fields};
use crate::sum_reasons::SumReason::{
    AccountFields, AccountMissing, AccountWord, Entries, Path, Quota, Records, Taken, TakenEntries,
    TooMany, Used, VolumeFields, VolumeFirst, VolumeMissing, VolumeName, VolumeWord,
};
use crate::sum_reasons::{SumReason, SumWord};
use flat_store::FlatStore;
use script::{Script, VolumeLine, next_line};

/// The uid of the root.
const ROOT: u32 = 1;

/// An account whose line is due.
#[derive(Clone, Copy)]
struct AccountDue {
    uid: u32,
    quota: u32,
    used: u32,
}

/// A volume whose line is due: its number, its records and VTOC entries, and how many of both are taken.
#[derive(Clone, Copy)]
struct VolumeDue {
    volume: u32,
    records: u32,
    taken: u32,
    entries: u32,
    taken_entries: u32,
}

/// Whose line is due.
#[derive(Clone, Copy)]
enum DueLine {
    Account(AccountDue),
    Volume(VolumeDue),
    Nothing,
}

/// The account of a uid. `None` where the uid is that of no account.
fn account_at(store: &FlatStore, uid: u32) -> Option<AccountDue>
    ensures { (p : Plan) (s : Store) → Shows p store.now s → IfSome result (IsAccountDue s) }
{
    let accounts = store.accounts();
    let Some(node) = accounts.node(uid) else {
        return None;
    };
    if !node.dir {
        return None;
    }
    let quota = accounts.quota(uid);
    if uid != ROOT && quota == 0 {
        return None;
    }
    let used = store.used(uid);
    Some(AccountDue { uid, quota, used })
}

/// The line of the script of the volume of a number.
fn volume_line(script: &Script, volume: u32) -> Option<&VolumeLine>
    ensures { IfSome result (λ x. slice_get script.now.volumes volume ≡ Some x.now) }
{
    script.volumes().get(volume as usize)
}

/// The volume of a number, if there is one.
#[tactic(auto, using(crate::proofs::DueLaws::due_steps))]
fn volume_at(script: &Script, store: &FlatStore, volume: u32) -> DueLine
    ensures { (s : Store) → Shows script.now store.now s → IsDue script.now s result }
{
    match volume_line(script, volume) {
        Some(line) => DueLine::Volume(VolumeDue {
            volume,
            records: line.records,
            taken: store.taken(volume),
            entries: line.entries,
            taken_entries: store.entries(volume),
        }),
        None => DueLine::Nothing,
    }
}

/// Whose line is due after so many: the accounts come in order of uid, and then the volumes.
#[tactic(auto, using(crate::proofs::DueLaws::due_steps))]
fn due_line(script: &Script, store: &FlatStore, before: u32) -> DueLine
    ensures { (s : Store) → Shows script.now store.now s → IsDue script.now s result }
{
    let mut before = before;
    for uid in ROOT..store.next_uid() {
        if let Some(account) = account_at(store, uid) {
            if before == 0 {
                return DueLine::Account(account);
            }
            before -= 1;
        }
    }
    volume_at(script, store, before)
}

/// Why the line of an account isn't as it should be, where field number n is the first that isn't.
#[tactic(auto, unfolding(crate::specs::DueLines::account_reason))]
fn account_reason(due: AccountDue, n: u32) -> SumReason
    ensures { result ≡ account_reason due n }
{
    match n {
        1 => Path(due.uid),
        2 => AccountWord(2, SumWord::Quota, due.uid),
        3 => Quota(due.uid, due.quota),
        4 => AccountWord(4, SumWord::Used, due.uid),
        5 => Used(due.uid, due.used),
        _ => AccountFields(due.uid),
    }
}

/// Why the line of a volume isn't as it should be, where field number n is the first that isn't.
#[tactic(auto, unfolding(crate::specs::DueLines::volume_reason))]
fn volume_reason(due: VolumeDue, n: u32) -> SumReason
    ensures { result ≡ volume_reason due n }
{
    match n {
        1 => VolumeFirst(due.volume),
        2 => VolumeName(due.volume),
        3 => VolumeWord(3, SumWord::Records, due.volume),
        4 => Records(due.volume, due.records),
        5 => VolumeWord(5, SumWord::Taken, due.volume),
        6 => Taken(due.volume, due.taken),
        7 => VolumeWord(7, SumWord::Entries, due.volume),
        8 => Entries(due.volume, due.entries),
        9 => VolumeWord(9, SumWord::Taken, due.volume),
        10 => TakenEntries(due.volume, due.taken_entries),
        _ => VolumeFields(due.volume),
    }
}

/// Why a line isn't the one that is due, where field number n is the first that isn't.
#[tactic(auto, unfolding(crate::specs::DueLines::reason_of_line))]
fn reason_of_line(due: DueLine, n: u32) -> SumReason
    ensures { result ≡ reason_of_line due n }
{
    match due {
        DueLine::Account(account) => account_reason(account, n),
        DueLine::Volume(volume) => volume_reason(volume, n),
        DueLine::Nothing => TooMany,
    }
}

/// What is missing, where the text ends before the line that is due.
#[tactic(auto, unfolding(crate::specs::DueLines::reason_of_end))]
fn reason_of_end(due: DueLine) -> Option<SumReason>
    ensures { result ≡ reason_of_end due }
{
    match due {
        DueLine::Account(a) => Some(AccountMissing(a.uid, a.quota, a.used)),
        DueLine::Volume(v) => Some(VolumeMissing(v.volume, v.taken, v.taken_entries)),
        DueLine::Nothing => None,
    }
}

/// Why these lines don't begin with the line that is due, by its fields. `None` where none is due, and none is there.
#[tactic(auto, using(crate::proofs::DueLaws::reason_steps))]
fn line_reason(due: DueLine, given: &[u8], wanted: &[u8]) -> Option<SumReason>
    requires { length given.now < 2 ^ 31 }
    ensures { (p : Plan) (s : Store) → IsDue p s due → IfSome result (IsSoSum p s) }
{
    if given.is_empty() {
        return reason_of_end(due);
    }
    if wanted.is_empty() {
        return Some(TooMany);
    }
    let (line, _) = next_line(given);
    let (due_line, _) = next_line(wanted);
    Some(reason_of_line(due, same_fields(line, due_line) + 1))
}

/// Why these lines aren't those that are due, with how many agree before the first at fault. `None` where none is.
pub(crate) fn first_fault(
    script: &Script,
    store: &FlatStore,
    due: &[u8],
    given: &[u8],
) -> Option<(SumReason, u32)>
    requires { length given.now < 2 ^ 31 }
    ensures so { (s : Store) → Shows script.now store.now s → IfSome result (λ x. IsSoSum script.now s x.0) }
    ensures place { IfSome result (λ x. x.1 ≡ same_front (lines_of given.now) (lines_of due.now)) }
{
    let (same, left, wanted) = parting(given, due);
    let whose = due_line(script, store, same);
    match line_reason(whose, left, wanted) {
        Some(reason) => Some((reason, same)),
        None => None,
    }
}
