//! Rows of access control lists are set, and quota is moved.

ghost use Rattle.std.specs.Prelude.{◌≡◌, true, false};
ghost use Rattle.flat_model.specs.Commands.{takes_effect};
ghost use Rattle.flat_model.specs.Rights.{acl_reply, move_reply, row_with};
ghost use Rattle.flat_model.specs.Store.{Store as Flat};
ghost use Rattle.tree_commands.specs.Shown.{HasMoved, HasRowSet, ShowsTree};

use crate::nodes::look;
use crate::paths::{directory_at, segment_at};
use accounts::Accounts;
use book::Reply;
use mnames::{Mode, Path, Row};
use quota_cells::MoveFault;

/// Sets a row of a segment's access control list, unless that is refused.
pub fn set_row(accounts: &mut Accounts, path: &Path, row: &Row, mode: Mode) -> Reply
    ensures answer { (s : Flat) → ShowsTree s accounts.old → result ≡ acl_reply s path.now row.now }
    ensures done { takes_effect result ≡ true
        → HasRowSet accounts.old accounts.new path.now (row_with row.now mode) }
    ensures refused { takes_effect result ≡ false → accounts.new ≡ accounts.old }
{
    let uid = match segment_at(accounts, path) {
        Ok(node) => node.uid,
        Err(reply) => return reply,
    };
    if accounts.set_row(uid, row.copied(), mode).is_err() {
        return Reply::AclFull;
    }
    Reply::Done
}

/// Moves an amount of quota, unless that is refused.
pub fn move_quota(accounts: &mut Accounts, path: &Path, amount: i32) -> Reply
    ensures answer { (s : Flat) → ShowsTree s accounts.old → result ≡ move_reply s path.now amount }
    ensures done { takes_effect result ≡ true → HasMoved accounts.old accounts.new path.now amount }
    ensures refused { takes_effect result ≡ false → accounts.new ≡ accounts.old }
{
    let uid = match directory_at(accounts, path) {
        Ok(node) => node.uid,
        Err(reply) => return reply,
    };
    if amount == 0 {
        look(accounts);
        return Reply::Done;
    }
    match accounts.move_quota(uid, amount) {
        Ok(()) => Reply::Done,
        Err(MoveFault::TooLittle) => Reply::TooLittle,
        Err(MoveFault::Over { account }) => Reply::Over(account),
    }
}
