ghost use Rattle.std.specs.Prelude.{◌≡◌, ◌++◌, OnOk, IfOk, string_bytes};
ghost use Rattle.std.specs.List.{flat_map};
ghost use Rattle.mnames.specs.Names.{names_text, path_text};
ghost use Rattle.listing.specs.Listings.{account_text, volume_text, summary_text};

use crate::NoMemory;
use crate::counts::{AccountCount, Summary, VolumeCount};
use mnames::Name;
use std::alloc::{AllocError, Global};

/// Appends each name with `>` before it.
#[tactic(auto, using(crate::proofs::LineLaws::push_names_steps, std::proofs::lemmas::Grind::common_steps))]
fn push_names(out: &mut String, names: &[Name]) -> Result<(), AllocError>
    ensures { OnOk result (string_bytes out.new ≡ string_bytes out.old ++ names_text names.now) }
{
    for name in names {
        write!(out, ">{name}")?;
    }
    Ok(())
}

/// Appends the path of these names; that of the root is `>` alone.
fn push_path(out: &mut String, names: &[Name]) -> Result<(), AllocError>
    ensures { OnOk result (string_bytes out.new ≡ string_bytes out.old ++ path_text names.now) }
{
    if names.is_empty() {
        return write!(out, ">");
    }
    push_names(out, names)
}

/// Appends the line of an account.
#[tactic(auto, unfolding(crate::specs::Listings::account_text))]
fn push_account(out: &mut String, account: &AccountCount) -> Result<(), AllocError>
    ensures { OnOk result (string_bytes out.new ≡ string_bytes out.old ++ account_text account.now) }
{
    let quota = account.quota();
    let used = account.used();
    push_path(out, account.path())?;
    write!(out, " quota {quota} used {used}\n")
}

/// Appends a line for each account, in order.
#[tactic(auto, using(crate::proofs::LineLaws::push_each_steps))]
fn push_accounts(out: &mut String, accounts: &[AccountCount]) -> Result<(), AllocError>
    ensures { OnOk result (string_bytes out.new ≡ string_bytes out.old ++ flat_map account_text accounts.now) }
{
    for account in accounts {
        push_account(out, account)?;
    }
    Ok(())
}

/// Appends a line for each volume, in order.
#[tactic(auto, using(crate::proofs::LineLaws::push_each_steps), unfolding(crate::specs::Listings::volume_text))]
fn push_volumes(out: &mut String, volumes: &[VolumeCount]) -> Result<(), AllocError>
    ensures { OnOk result (string_bytes out.new ≡ string_bytes out.old ++ flat_map volume_text volumes.now) }
{
    for count in volumes {
        let volume = count.volume();
        let name = &volume.name;
        let records = volume.records;
        let entries = volume.entries;
        let taken = count.taken();
        let used = count.used();
        writeln!(
            out,
            "volume {name} records {records} taken {taken} entries {entries} taken {used}"
        )?;
    }
    Ok(())
}

/// Appends the lines of the accounts and of the volumes.
#[tactic(auto, unfolding(crate::specs::Listings::summary_text))]
pub(crate) fn push_summary(out: &mut String, summary: &Summary) -> Result<(), AllocError>
    ensures { OnOk result (string_bytes out.new ≡ string_bytes out.old ++ summary_text summary.now) }
{
    push_accounts(out, summary.accounts())?;
    push_volumes(out, summary.volumes())
}

/// The lines of the accounts and of the volumes.
///
/// # Errors
/// `NoMemory` is want of memory for the text.
pub fn summary_text(alloc: Global, summary: &Summary) -> Result<String, NoMemory>
    ensures { IfOk result (λ text. string_bytes text ≡ summary_text summary.now) }
{
    let mut text = String::new(alloc);
    push_summary(&mut text, summary)?;
    Ok(text)
}
