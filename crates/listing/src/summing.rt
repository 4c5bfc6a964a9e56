ghost use Rattle.std.specs.Prelude.{◌≡◌, ◌==◌, ◌||◌, IfOk, is_some, length, not, true};
ghost use Rattle.script.specs.Plans.{Plan};
ghost use Rattle.accounts.specs.Maps.{Counts};
ghost use Rattle.tree_model.specs.Tree.{node_in};
ghost use Rattle.tree_model.specs.Trees.{IsTree};
ghost use Rattle.flat_model.specs.Store.{Store};
ghost use Rattle.flat_store.specs.Shown.{Shows};
ghost use Rattle.listing.specs.Listings.{trail_of, accounts_of, volumes_of, uses_of, summary_of};
ghost use Rattle.listing.specs.Gathered.{account_at, as_list, rest_of};

use crate::NoMemory;
use crate::counts::{AccountCount, Summary, VolumeCount, VolumeUse};
use accounts::Accounts;
use flat_store::FlatStore;
use mnames::Name;
use script::{Script, VolumeLine};
use std::alloc::{AllocError, Global};

/// The uid of the root.
const ROOT: u32 = 1;

/// What comes after the first.
fn below_root(chain: &[u32]) -> &[u32]
    ensures { result.now ≡ rest_of chain.now }
{
    match chain.split_first() {
        Some((_, below)) => below,
        None => chain,
    }
}

/// The nodes are a tree: a fact for those that go over it.
fn look(accounts: &Accounts)
    ensures { IsTree accounts.now.nodes }
{
    accounts.promise();
}

/// The names from the root down to a node.
fn trail(alloc: Global, accounts: &Accounts, uid: u32) -> Result<Vec<Name>, AllocError>
    requires { is_some (node_in accounts.now.nodes uid) ≡ true }
    ensures { IfOk result (λ names. names.items ≡ trail_of accounts.now.nodes uid) }
{
    let mut names = Vec::new(alloc);
    look(accounts);
    let chain = accounts.chain(uid);
    for step in below_root(chain.as_slice()) {
        if let Some(node) = accounts.node(*step) {
            names.push(node.name.copied())?;
        }
    }
    Ok(names)
}

/// Whether a directory is an account, with so much quota of its own.
fn is_account(uid: u32, quota: u32) -> bool
    ensures { result ≡ (uid == 1 || not (quota == 0)) }
{
    uid == ROOT || quota != 0
}

/// The account of a uid. `None` where the uid is that of no account.
fn account_count(
    alloc: Global,
    accounts: &Accounts,
    uid: u32,
) -> Result<Option<AccountCount>, AllocError>
    ensures { IfOk result (λ count. (s : Store) → s.nodes ≡ accounts.now.nodes → Counts accounts.now s.stored
        → as_list count ≡ account_at s (node_in s.nodes uid)) }
{
    let Some(node) = accounts.node(uid) else {
        return Ok(None);
    };
    if !node.dir {
        return Ok(None);
    }
    let quota = accounts.quota(uid);
    if !is_account(uid, quota) {
        return Ok(None);
    }
    let path = trail(alloc, accounts, uid)?;
    Ok(Some(AccountCount::new(path, quota, accounts.used(uid))))
}

/// The accounts of a tree, one after the other.
fn accounts_by_uid(alloc: Global, accounts: &Accounts) -> Result<Vec<AccountCount>, AllocError>
    ensures { IfOk result (λ counts. (s : Store) → s.nodes ≡ accounts.now.nodes → Counts accounts.now s.stored
        → counts.items ≡ accounts_of s) }
{
    let mut counts = Vec::new(alloc);
    look(accounts);
    for uid in ROOT..accounts.next_uid() {
        if let Some(count) = account_count(alloc, accounts, uid)? {
            counts.push(count)?;
        }
    }
    Ok(counts)
}

/// The accounts of a tree, in order of uid. It makes at most ten look-ups for each uid that the tree ever had.
///
/// # Errors
/// `NoMemory` is want of memory.
pub fn account_counts(alloc: Global, accounts: &Accounts) -> Result<Vec<AccountCount>, NoMemory>
    ensures { IfOk result (λ counts. (s : Store) → s.nodes ≡ accounts.now.nodes → Counts accounts.now s.stored
        → counts.items ≡ accounts_of s) }
{
    Ok(accounts_by_uid(alloc, accounts)?)
}

/// The volume of a line, of which so much is used.
fn volume_count(volume: &VolumeLine, taken: VolumeUse) -> VolumeCount
    ensures { result ≡ record { volume = volume.now; taken = taken.records; used = taken.entries } }
{
    let line = VolumeLine {
        name: volume.name.copied(),
        records: volume.records,
        entries: volume.entries,
    };
    VolumeCount::new(line, taken.records, taken.entries)
}

/// The volumes, in order, and how much of each is used.
fn volume_counts(
    alloc: Global,
    volumes: &[VolumeLine],
    uses: &[VolumeUse],
) -> Result<Vec<VolumeCount>, AllocError>
    ensures { IfOk result (λ counts. (s : Store) → uses.now ≡ uses_of s (length volumes.now)
        → counts.items ≡ volumes_of s 0 volumes.now) }
{
    let mut counts = Vec::new(alloc);
    for (volume, taken) in volumes.iter().zip(uses) {
        counts.push(volume_count(volume, *taken))?;
    }
    Ok(counts)
}

/// How much of each volume is used, in a flat store.
fn volume_uses(alloc: Global, store: &FlatStore, volumes: u32) -> Result<Vec<VolumeUse>, AllocError>
    ensures { IfOk result (λ uses. (p : Plan) (s : Store) → Shows p store.now s → uses.items ≡ uses_of s volumes) }
{
    let mut uses = Vec::new(alloc);
    for v in 0..volumes {
        uses.push(VolumeUse {
            records: store.taken(v),
            entries: store.entries(v),
        })?;
    }
    Ok(uses)
}

/// The accounts of a tree, and the volumes of a script, of which so much is used. They are those of each store that has
/// this tree, whose stored pages the accounts count, and whose volumes are used so.
///
/// # Errors
/// `NoMemory` is want of memory.
pub fn summary_of_counts(
    alloc: Global,
    script: &Script,
    accounts: &Accounts,
    uses: &[VolumeUse],
) -> Result<Summary, NoMemory>
    ensures { IfOk result (λ summary. (s : Store) → s.nodes ≡ accounts.now.nodes → Counts accounts.now s.stored
        → uses.now ≡ uses_of s (length script.now.volumes) → summary ≡ summary_of script.now s) }
{
    let accounts = account_counts(alloc, accounts)?;
    let volumes = volume_counts(alloc, script.volumes(), uses)?;
    Ok(Summary::new(accounts, volumes))
}

/// The accounts and the volumes of a script, as they are in a flat store.
///
/// # Errors
/// `NoMemory` is want of memory.
pub fn summary(alloc: Global, script: &Script, store: &FlatStore) -> Result<Summary, NoMemory>
    ensures { IfOk result (λ summary. (s : Store) → Shows script.now store.now s
        → summary ≡ summary_of script.now s) }
{
    script.promise();
    let uses = volume_uses(alloc, store, script.volumes().len() as u32)?;
    summary_of_counts(alloc, script, store.accounts(), &uses)
}
