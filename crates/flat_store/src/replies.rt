ghost use Rattle.std.specs.Prelude.{◌≡◌, ◌↔◌, ◌⊎◌, IsTrue};
ghost use Rattle.flat_model.specs.Commands.{takes_effect};
ghost use Rattle.flat_model.specs.Legal.{is_early, may_fail, MayAnswerDevice, MayAnswerDue};

use book::{Reply, is_same_reply};
use script::Command;

/// Whether a reply comes before any page is looked for.
fn is_early(reply: &Reply) -> bool
    ensures { result ≡ is_early reply.now }
{
    matches!(reply, Reply::Unknown | Reply::Gone | Reply::Length)
}

/// Whether a drive's failure may be told in place of a reply to a command.
pub fn may_fail(command: &Command, due: &Reply) -> bool
    ensures { result ≡ may_fail command.now due.now }
{
    if command.reference().is_some() {
        return !is_early(due);
    }
    let moves_pages = matches!(command, Command::Length { .. } | Command::Truncate { .. });
    moves_pages && matches!(due, Reply::Done)
}

/// Whether a command may be answered so, where this reply is due: with it, unless it is held back, or with a drive's
/// failure.
pub(crate) fn is_answer(
    held: bool,
    faulted: bool,
    command: &Command,
    due: &Reply,
    given: &Reply,
) -> bool
    ensures { IsTrue result ↔ (MayAnswerDue held due.now given.now
        ⊎ MayAnswerDevice faulted command.now due.now given.now) }
{
    let failed = faulted && may_fail(command, due) && matches!(given, Reply::Device);
    failed || (!held && is_same_reply(given, due))
}

/// Whether a command took effect that was answered so.
pub(crate) fn takes_effect(reply: &Reply) -> bool
    ensures { result ≡ takes_effect reply.now }
{
    matches!(
        reply,
        Reply::Word(_) | Reply::Done | Reply::Made(_) | Reply::Known(_)
    )
}
