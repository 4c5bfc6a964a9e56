ghost use Rattle.std.specs.Prelude.{◌≡◌, true};
ghost use Rattle.script.specs.Plans.{Plan};
ghost use Rattle.flat_model.specs.Commands.{takes_effect};
ghost use Rattle.flat_model.specs.Rights.{acl_reply, after_acl, after_move, move_reply};
ghost use Rattle.flat_model.specs.Store.{Store};
ghost use Rattle.flat_store.specs.Shown.{Holds};

use crate::holdings::Holdings;
use mnames::{Mode, Path, Row};
use tree_commands::{move_quota, set_row};

impl Holdings {
    /// Sets a row of a segment's access control list, unless that is refused.
    pub(crate) fn set_row(&mut self, path: &Path, row: &Row, mode: Mode)
        ensures { (p : Plan) (s : Store) → Holds p self.old s → takes_effect (acl_reply s path.now row.now) ≡ true
            → Holds p self.new (after_acl s path.now row.now mode) }
    {
        let _reply = set_row(&mut self.accounts, path, row, mode);
    }

    /// Moves an amount of quota, unless that is refused.
    pub(crate) fn move_quota(&mut self, path: &Path, amount: i32)
        ensures { (p : Plan) (s : Store) → Holds p self.old s → takes_effect (move_reply s path.now amount) ≡ true
            → Holds p self.new (after_move s path.now amount) }
    {
        let _reply = move_quota(&mut self.accounts, path, amount);
    }
}
