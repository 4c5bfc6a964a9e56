//! Replies that are refusals.

ghost use Rattle.std.specs.Prelude.{◌≡◌};
ghost use Rattle.storage_ops.specs.Shown.{is_refusal, refusal};

use book::Reply;

/// Whether a reply says why a command did nothing. (Source: own.)
pub fn is_refusal(reply: &Reply) -> bool
    ensures { result ≡ is_refusal reply.now }
{
    !matches!(
        reply,
        Reply::Word(_)
            | Reply::Done
            | Reply::Made(_)
            | Reply::Known(_)
            | Reply::SegIs { .. }
            | Reply::DirIs { .. }
    )
}

/// The reply, where it is a refusal.
pub(crate) fn refusal(reply: Reply) -> Option<Reply>
    ensures { result ≡ refusal reply }
{
    if is_refusal(&reply) {
        Some(reply)
    } else {
        None
    }
}
