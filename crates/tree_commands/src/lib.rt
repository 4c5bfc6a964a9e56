//! Tree commands over the directory tree with its accounts: what a path leads to, what each command is answered that
//! the tree alone decides, and the changes of rows and of quota.
//!
//! A reply is that of each flat store with the same nodes, whose stored pages the accounts count (`ShowsTree`).
#![tactic(auto)]

mod nodes;
mod paths;
mod replies;
mod rights;

pub use nodes::{pages_of, volume_of};
pub use paths::{branch_at, directory_at, node_at, node_below, segment_at};
pub use replies::{
    acl_reply, delete_reply, make_reply, move_reply, quota_of, status_reply, truncate_reply,
};
pub use rights::{move_quota, set_row};
