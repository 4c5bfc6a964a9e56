//! Access and quota are changed.

ghost use Rattle.std.specs.Prelude.{◌≡◌, true, false};
ghost use Rattle.script.specs.Plans.{Plan};
ghost use Rattle.flat_model.specs.Commands.{takes_effect};
ghost use Rattle.flat_model.specs.Rights.{acl_reply, after_acl, after_move, move_reply, row_with};
ghost use Rattle.flat_model.specs.Store.{Store as Flat};
ghost use Rattle.storage_ops.specs.Shown.{HasMoved, HasRowSet, IsCutAt, Shows, answered, refusal};

use crate::replies::refusal;
use crate::store::Store;
use book::Reply;
use mnames::{Mode, Path, Row};
use tree_commands::{acl_reply, move_quota, move_reply, set_row};
use volumes::Drive;

impl<D: Drive> Store<D> {
    /// What refuses the setting of a row of a segment's access control list: what the path leads to, else `AclFull`
    /// exactly where the row isn't in the list and 16 rows are. (Source: Bensoussan, Clingen and Daley 1972.)
    pub fn acl_refusal(&self, path: &Path, row: &Row) -> Option<Reply>
        ensures { (p : Plan) (s : Flat) → Shows D.pages p s self.now
            → result ≡ refusal (acl_reply s path.now row.now) }
    {
        refusal(acl_reply(&self.accounts, path, row))
    }

    /// What refuses the move of quota between a directory and its superior: what the path leads to; `TooLittle` exactly
    /// where the giver has less than the amount; else `Over` exactly where an account would be above its quota, with
    /// the least uid of such. (Source: Organick 1972.)
    pub fn move_refusal(&self, path: &Path, amount: i32) -> Option<Reply>
        ensures { (p : Plan) (s : Flat) → Shows D.pages p s self.now
            → result ≡ refusal (move_reply s path.now amount) }
    {
        refusal(move_reply(&self.accounts, path, amount))
    }

    /// Sets what a row of a segment's access control list allows, and gives `Done`, or what refuses it. Descriptors
    /// that lead to the segment must have been cut. (Source: Bensoussan, Clingen and Daley 1972.)
    pub fn set_acl(&mut self, path: &Path, row: &Row, mode: Mode) -> Reply
        requires { IsCutAt self.old.accounts self.old.segs path.now }
        ensures answer { (p : Plan) (s : Flat) → Shows D.pages p s self.old → result ≡ acl_reply s path.now row.now }
        ensures effect { (p : Plan) (s : Flat) → Shows D.pages p s self.old
            → Shows D.pages p (answered result s (after_acl s path.now row.now mode)) self.new }
        ensures done { takes_effect result ≡ true
            → HasRowSet self.old.accounts self.new.accounts path.now (row_with row.now mode) }
        ensures refused { takes_effect result ≡ false → self.new ≡ self.old }
        ensures rest { self.new ≡ record self.old { accounts = self.new.accounts } }
    {
        set_row(&mut self.accounts, path, row, mode)
    }

    /// Moves quota between a directory and its superior: a positive amount down to it, a negative one up from it. It
    /// gives `Done`, or what refuses it. (Source: Organick 1972.)
    pub fn move_quota(&mut self, path: &Path, amount: i32) -> Reply
        ensures answer { (p : Plan) (s : Flat) → Shows D.pages p s self.old → result ≡ move_reply s path.now amount }
        ensures effect { (p : Plan) (s : Flat) → Shows D.pages p s self.old
            → Shows D.pages p (answered result s (after_move s path.now amount)) self.new }
        ensures done { takes_effect result ≡ true
            → HasMoved self.old.accounts self.new.accounts path.now amount }
        ensures refused { takes_effect result ≡ false → self.new ≡ self.old }
        ensures rest { self.new ≡ record self.old { accounts = self.new.accounts } }
    {
        move_quota(&mut self.accounts, path, amount)
    }
}
