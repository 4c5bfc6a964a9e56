ghost use Rattle.std.specs.Prelude.{◌≡◌};

use mnames::Name;
use script::VolumeLine;
use std::marker::Model;

/// An account: the root, or a directory with a quota of its own (Organick 1972).
#[derive(Drop)]
pub struct AccountCount {
    path: Vec<Name>,
    quota: u32,
    used: u32,
}

impl Model for AccountCount {
    ghost use Rattle.listing.specs.Listings.{AccountCount as Account};

    ghost Value = { Account };

    ghost view = { λ a. record { path = a.path.items; quota = a.quota; used = a.used } };
}

impl AccountCount {
    /// The account at these names from the root down, with its quota and how many stored pages it is charged for, both
    /// in pages.
    pub fn new(path: Vec<Name>, quota: u32, used: u32) -> AccountCount
        ensures { result ≡ record { path = path.items; quota = quota; used = used } }
    {
        AccountCount { path, quota, used }
    }

    /// The names from the root down.
    pub fn path(&self) -> &[Name]
        ensures { result.now ≡ self.now.path }
    {
        &self.path
    }

    /// Its quota, in pages.
    pub fn quota(&self) -> u32
        ensures { result ≡ self.now.quota }
    {
        self.quota
    }

    /// How many stored pages it is charged for.
    pub fn used(&self) -> u32
        ensures { result ≡ self.now.used }
    {
        self.used
    }
}

/// How much of a volume is used.
#[derive(Clone, Copy, PartialEq, Eq)]
pub struct VolumeUse {
    /// How many of its records are taken, one for each stored page.
    pub records: u32,
    /// How many of its VTOC entries are taken, one for each directory and segment.
    pub entries: u32,
}

/// A volume of a script, and how much of it is used.
#[derive(Drop)]
pub struct VolumeCount {
    volume: VolumeLine,
    taken: u32,
    used: u32,
}

impl Model for VolumeCount {
    ghost use Rattle.listing.specs.Listings.{VolumeCount as Volume};

    ghost Value = { Volume };

    ghost view = { λ v. record { volume = v.volume; taken = v.taken; used = v.used } };
}

impl VolumeCount {
    /// A volume of which so many records are taken, one for each stored page, and so many VTOC entries, one for each
    /// directory and segment.
    pub fn new(volume: VolumeLine, taken: u32, used: u32) -> VolumeCount
        ensures { result ≡ record { volume = volume; taken = taken; used = used } }
    {
        VolumeCount {
            volume,
            taken,
            used,
        }
    }

    /// Its line in the script.
    pub fn volume(&self) -> &VolumeLine
        ensures { result.now ≡ self.now.volume }
    {
        &self.volume
    }

    /// How many of its records are taken.
    pub fn taken(&self) -> u32
        ensures { result ≡ self.now.taken }
    {
        self.taken
    }

    /// How many of its VTOC entries are taken.
    pub fn used(&self) -> u32
        ensures { result ≡ self.now.used }
    {
        self.used
    }
}

/// What a listing ends with: the accounts in order of uid, and the volumes in the order of the script.
#[derive(Drop)]
pub struct Summary {
    accounts: Vec<AccountCount>,
    volumes: Vec<VolumeCount>,
}

impl Model for Summary {
    ghost use Rattle.listing.specs.Listings.{Summary as Summed};

    ghost Value = { Summed };

    ghost view = { λ s. record { accounts = s.accounts.items; volumes = s.volumes.items } };
}

impl Summary {
    /// These accounts and volumes.
    pub fn new(accounts: Vec<AccountCount>, volumes: Vec<VolumeCount>) -> Summary
        ensures { result ≡ record { accounts = accounts.items; volumes = volumes.items } }
    {
        Summary { accounts, volumes }
    }

    /// The accounts, in order of uid.
    pub fn accounts(&self) -> &[AccountCount]
        ensures { result.now ≡ self.now.accounts }
    {
        &self.accounts
    }

    /// The volumes, in the order of the script.
    pub fn volumes(&self) -> &[VolumeCount]
        ensures { result.now ≡ self.now.volumes }
    {
        &self.volumes
    }
}
