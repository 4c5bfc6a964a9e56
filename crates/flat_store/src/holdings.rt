ghost use Rattle.std.specs.Prelude.{◌≡◌, ◌==◌, nat_le};
ghost use Rattle.script.specs.Plans.{Plan};
ghost use Rattle.flat_model.specs.Store.{Store};
ghost use Rattle.flat_model.specs.Cuts.{without_pages};
ghost use Rattle.flat_store.specs.Shown.{Holds, pages_in};

use crate::gauges::{Gauge, drain_at};
use crate::pages::Pages;
use accounts::Accounts;
use std::marker::Model;
use tree_commands::volume_of;

/// The tree with its accounts, the stored pages, and for each volume its records and its VTOC entries. They always show
/// some flat store.
#[derive(Drop)]
pub(crate) struct Holdings {
    pub(crate) accounts: Accounts,
    pub(crate) pages: Pages,
    pub(crate) records: Vec<Gauge>,
    pub(crate) entries: Vec<Gauge>,
}

impl Model for Holdings {
    ghost use Rattle.flat_store.specs.Shown.{Held, IsHeld};

    ghost Value = { Held };

    ghost view = { λ h. record {
      accounts = h.accounts;
      pages = h.pages;
      records = h.records.items;
      entries = h.entries.items;
    } };

    ghost invariant = { λ h. IsHeld (record {
      accounts = h.accounts;
      pages = h.pages;
      records = h.records.items;
      entries = h.entries.items;
    }) };
}

#[tactic(auto, using(crate::proofs::NodeLaws::pages_found, crate::proofs::NodeLaws::no_pages))]
/// The length of a node, in pages; 0 where it isn't there.
pub(crate) fn pages_of(accounts: &Accounts, uid: u32) -> u32
    ensures { result ≡ pages_in accounts.now.nodes uid }
{
    match accounts.node(uid) {
        Some(node) => node.length,
        None => 0,
    }
}

impl Holdings {
    /// The tree with its accounts.
    pub(crate) fn tree(&self) -> &Accounts
        ensures { result.now ≡ self.now.accounts }
    {
        &self.accounts
    }

    /// A page of a segment is stored no more, if it was, and its words are 0.
    pub(crate) fn drop_page(&mut self, uid: u32, page: u32)
        ensures { (p : Plan) (s : Store) → Holds p self.old s
            → Holds p self.new (without_pages s uid (λ q. q == page)) }
    {
        if self.pages.has(uid, page) {
            let volume = volume_of(&self.accounts, uid);
            self.pages.remove(uid, page);
            self.accounts.credit(uid, 1);
            drain_at(&mut self.records, volume, 1);
        }
    }

    /// The pages of a segment from one on are stored no more, and their words are 0.
    pub(crate) fn drop_from(&mut self, uid: u32, from: u32)
        ensures { (p : Plan) (s : Store) → Holds p self.old s
            → Holds p self.new (without_pages s uid (λ q. nat_le from q)) }
    {
        let end = pages_of(&self.accounts, uid);
        let pages = self.pages.remove_between(uid, from, end);
        if pages > 0 {
            let volume = volume_of(&self.accounts, uid);
            self.accounts.credit(uid, pages);
            drain_at(&mut self.records, volume, pages);
        }
    }
}
