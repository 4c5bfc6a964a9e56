//! What the store of the tables promises.

ghost use Rattle.std.specs.Prelude.{◌≡◌, sum_by, IfNone, IfSome, None};
ghost use Rattle.seg_control.specs.Kept.{IsKept};
ghost use Rattle.storage_ops.specs.Shown.{IsStore};
ghost use Rattle.machine_model.specs.Keeps.{AreAccounts};
ghost use Rattle.machine_model.specs.Rounds.{IsOwnedBy};

use crate::tables::Tables;
use volumes::Drive;

impl<D: Drive> Tables<D> {
    /// What the store of the tables promises between calls: page tables, frames and file maps agree, descriptors and
    /// trailers do, what is active is in the tree, which is one, no account is charged for more than its quota, the
    /// running counts are the counts from scratch, and each failure of a drive is counted. It does nothing. (Source:
    /// own.)
    pub fn promise(&self)
        ensures kept { IsKept self.now.state.store.pages self.now.state.store.ast self.now.state.store.links }
        ensures counted { IsStore self.now.state.store.pages self.now.state.store.ast self.now.state.store.links
            self.now.state.store.accounts self.now.state.store.whos }
        ensures accounts { AreAccounts self.now.state.store.accounts }
        ensures faults { self.now.state.faults ≡ sum_by D.faults self.now.drives }
    {
        self.store.segs().pages();
        self.store.accounts().promise();
    }

    /// The processor that owns the supervisor. (Source: own.)
    pub fn owner(&self) -> Option<u32>
        ensures some { IfSome result (λ c. IsOwnedBy self.now.state c) }
        ensures none { IfNone result (self.now.state.owner ≡ None) }
    {
        match self.job.holder() {
            Some(holder) => Some(holder.cpu),
            None => None,
        }
    }

    /// How many frames the shutdown has visited. (Source: own.)
    pub fn visited(&self) -> u32
        ensures { result ≡ self.now.state.visited }
    {
        self.visited
    }
}
