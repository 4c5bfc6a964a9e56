ghost use Rattle.std.specs.Prelude.{◌≡◌, ◌&&◌, ℕ, not, slice_set, replicate, IfOk, OnOk, OnErr};
ghost use Rattle.std.specs.List.{list_any};
ghost use Rattle.std.specs.Bool.{Decides};
ghost use Rattle.custody_model.specs.Custody.{is_going_descriptor, is_uid, leads_to};
ghost use Rattle.custody_model.specs.declared.DescriptorUse.TheVariants as descriptor;
ghost use Rattle.custody.specs.Uses.{descriptor_at};

use crate::NoMemory;
use crate::uses::{UseCounts, descriptor_mark};
use custody_model::DescriptorUse;
use std::alloc::Global;
use std::marker::Model;

/// What the descriptors of a process lead to. A contract sees the list of their uses.
///
/// Beside it stand counts of them, so that nothing is looked for among all descriptors.
#[derive(Drop)]
pub(crate) struct Descriptors {
    uses: Vec<DescriptorUse>,
    counts: UseCounts,
}

impl Model for Descriptors {
    ghost use Rattle.std.specs.Prelude.{List};
    ghost use Rattle.custody.specs.Uses.{AreDescriptors};
    ghost use Rattle.custody_model.specs.declared.DescriptorUse.{DescriptorUse as Use};

    ghost Value = { List Use };

    ghost view = { λ d. d.uses.items };

    ghost invariant = { λ d. AreDescriptors d.uses.items d.counts };
}

impl Descriptors {
    /// The 256 descriptors of a process, which lead to nothing.
    ///
    /// # Errors
    /// `NoMemory` is want of memory.
    #[tactic(auto, using(crate::proofs::BootLaws::descriptors_free))]
    pub(crate) fn new(alloc: Global) -> Result<Descriptors, NoMemory>
        ensures { IfOk result (λ d. d ≡ replicate 256 descriptor.Free) }
    {
        let uses = vec![in alloc; DescriptorUse::Free; 256]?;
        Ok(Descriptors {
            uses,
            counts: UseCounts::new(alloc),
        })
    }

    /// What a descriptor leads to; nothing, where there is no such number.
    pub(crate) fn at(&self, number: u32) -> DescriptorUse
        ensures { result ≡ descriptor_at self.now number }
    {
        match self.uses.get(number as usize) {
            Some(of) => *of,
            None => DescriptorUse::Free,
        }
    }

    /// A descriptor leads to this from now on; nothing changes where there is no such number.
    ///
    /// # Errors
    /// `NoMemory` is want of memory; then nothing is changed.
    #[tactic(auto, using(crate::proofs::TallyLaws::descriptors_counted))]
    pub(crate) fn put(&mut self, number: u32, to: DescriptorUse) -> Result<(), NoMemory>
        ensures ok { OnOk result (self.new ≡ slice_set self.old number to) }
        ensures err { OnErr result (self.new ≡ self.old) }
    {
        let at = number as usize;
        if at >= self.uses.len() {
            return Ok(());
        }
        let from = self.uses[at];
        self.counts.reserve(descriptor_mark(to))?;
        self.counts
            .shift(descriptor_mark(from), descriptor_mark(to));
        self.uses[at] = to;
        Ok(())
    }

    /// Whether a descriptor leads to a segment.
    pub(crate) fn lead_to(&self, uid: u32) -> bool
        ensures { result ≡ list_any (λ x. is_uid uid (leads_to x)) self.now }
    {
        let count = self.counts.of(uid);
        !(count == 0)
    }

    /// Whether no descriptor leads to anything.
    pub(crate) fn are_free(&self) -> bool
        ensures { Decides result ((n : ℕ) → descriptor_at self.now n ≡ descriptor.Free) }
    {
        let staying = self.counts.staying();
        let going = self.counts.going();
        staying == 0 && going == 0
    }

    /// Whether a descriptor is on its way out.
    pub(crate) fn some_goes(&self) -> bool
        ensures { result ≡ list_any is_going_descriptor self.now }
    {
        let count = self.counts.going();
        count > 0
    }

    /// Whether a descriptor is on its way out that leads to another segment.
    pub(crate) fn some_goes_but_of(&self, uid: u32) -> bool
        ensures { result ≡ list_any (λ x. is_going_descriptor x && not (is_uid uid (leads_to x))) self.now }
    {
        let count = self.counts.going_of(uid);
        let all = self.counts.going();
        !(count == all)
    }
}
