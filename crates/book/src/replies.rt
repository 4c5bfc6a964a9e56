ghost use Rattle.std.specs.Prelude.{◌≡◌, ◌↔◌, IsTrue, Some};
ghost use Rattle.book.specs.Replies.{bare_text, reply_numbers, reply_text};

use mword::Word;
use std::fmt;

/// What a process is answered to a command (own). Its text is that of the listing: a word has 12 octal
/// digits, any other number is decimal.
#[derive(Clone, Copy, PartialEq, Eq)]
pub enum Reply {
    /// The number stands for nothing in this process.
    Unknown,
    /// The segment that the number stands for was deleted.
    Gone,
    /// The access control list of the segment doesn't permit it (Organick 1972).
    NoAccess,
    /// The offset is past the segment's last page.
    Length,
    /// The account that the segment is charged to has used up its quota (Organick 1972).
    Quota,
    /// All records of the segment's volume are in use (Organick 1972).
    NoRecord,
    /// A call of a drive failed.
    Device,
    /// The word that was read, or the sum that was written.
    Word(Word),
    /// The command took effect.
    Done,
    /// The segment or the directory was made; its unique identifier.
    Made(u32),
    /// The segment is known to the process by this number.
    Known(u32),
    /// The path leads to nothing.
    NoPath,
    /// A name of the path would be looked up in a segment.
    NotDir,
    /// It is a directory, and a segment is asked for.
    IsDir,
    /// It is a segment, and a directory is asked for.
    IsSeg,
    /// The directory has a branch of that name (Organick 1972).
    Exists,
    /// A directory would lie deeper than the tree may be.
    Deep,
    /// The tree has as many branches as it may have.
    Room,
    /// All VTOC entries of the volume are in use (Organick 1972).
    NoEntry,
    /// The process knows as many segments as it may know.
    Full,
    /// The access control list has as many rows as it may have.
    AclFull,
    /// A stored page lies past the new length.
    Beyond,
    /// The directory has a branch.
    NotEmpty,
    /// The directory has quota (Organick 1972).
    HasQuota,
    /// The root can't be deleted, and no quota moves to it from above.
    Root,
    /// The directory that gives quota has less (Organick 1972).
    TooLittle,
    /// An account would be charged for more pages than its quota; the least unique identifier of such (Organick
    /// 1972).
    Over(u32),
    /// What a segment is like: its unique identifier, its length in pages, and how many of its pages are stored.
    SegIs { uid: u32, length: u32, stored: u32 },
    /// What a directory is like: its unique identifier, its quota in pages, and how many stored pages are charged to
    /// it, 0 where it is no account.
    DirIs { uid: u32, quota: u32, used: u32 },
}

/// The text of a reply of one word; of any other nothing.
#[tactic(auto, unfolding(crate::specs::Replies::bare_text))]
pub(crate) fn bare_text(reply: &Reply) -> &'static str
    ensures { result.now ≡ bare_text reply.now }
{
    match reply {
        Reply::Unknown => "unknown",
        Reply::Gone => "gone",
        Reply::NoAccess => "noaccess",
        Reply::Length => "length",
        Reply::Quota => "quota",
        Reply::NoRecord => "norecord",
        Reply::Device => "device",
        Reply::Done => "done",
        Reply::NoPath => "nopath",
        Reply::NotDir => "notdir",
        Reply::IsDir => "isdir",
        Reply::IsSeg => "isseg",
        Reply::Exists => "exists",
        Reply::Deep => "deep",
        Reply::Room => "room",
        Reply::NoEntry => "noentry",
        Reply::Full => "full",
        Reply::AclFull => "aclfull",
        Reply::Beyond => "beyond",
        Reply::NotEmpty => "notempty",
        Reply::HasQuota => "hasquota",
        Reply::Root => "root",
        Reply::TooLittle => "toolittle",
        _ => "",
    }
}

/// What a reply tells in numbers after the number of its kind; of one word four times 0.
fn numbers(reply: &Reply) -> (u32, u64, u32, u32)
    ensures { result ≡ reply_numbers reply.now }
{
    match *reply {
        Reply::Word(word) => (1, word.value(), 0, 0),
        Reply::Made(uid) => (2, u64::from(uid), 0, 0),
        Reply::Known(number) => (3, u64::from(number), 0, 0),
        Reply::Over(account) => (4, u64::from(account), 0, 0),
        Reply::SegIs {
            uid,
            length,
            stored,
        } => (5, u64::from(uid), length, stored),
        Reply::DirIs { uid, quota, used } => (6, u64::from(uid), quota, used),
        _ => (0, 0, 0, 0),
    }
}

/// Whether two replies tell the same numbers.
#[tactic(auto, using(crate::proofs::SameReplies::same_four, std::proofs::lemmas::Grind::common_steps))]
fn tell_same(left: &Reply, right: &Reply) -> bool
    ensures { IsTrue result ↔ reply_numbers left.now ≡ reply_numbers right.now }
{
    let left = numbers(left);
    let right = numbers(right);
    left.0 == right.0 && left.1 == right.1 && left.2 == right.2 && left.3 == right.3
}

/// Whether two replies have the same word.
#[tactic(auto, using(crate::proofs::SameReplies::same_bytes))]
fn read_same(left: &Reply, right: &Reply) -> bool
    ensures { IsTrue result ↔ bare_text left.now ≡ bare_text right.now }
{
    bare_text(left).as_bytes() == bare_text(right).as_bytes()
}

/// Whether two replies are one. (Source: own.)
#[tactic(auto, using(crate::proofs::SameReplies::same_reply, std::proofs::lemmas::Grind::common_steps))]
pub fn is_same_reply(left: &Reply, right: &Reply) -> bool
    ensures { IsTrue result ↔ left.now ≡ right.now }
{
    tell_same(left, right) && read_same(left, right)
}

impl fmt::Display for Reply {
    ghost output = { λ r. Some (reply_text r) };

    #[tactic(auto, unfolding(crate::specs::Replies::reply_text))]
    fn fmt<W: fmt::Write>(&self, f: &mut fmt::Formatter<W>) -> fmt::Result {
        match self {
            Reply::Word(word) => write!(f, "word {word}"),
            Reply::Made(uid) => write!(f, "made {uid}"),
            Reply::Known(number) => write!(f, "known {number}"),
            Reply::Over(account) => write!(f, "over {account}"),
            Reply::SegIs {
                uid,
                length,
                stored,
            } => write!(f, "seg {uid} length {length} stored {stored}"),
            Reply::DirIs { uid, quota, used } => write!(f, "dir {uid} quota {quota} used {used}"),
            bare => f.write_str(bare_text(bare)),
        }
    }
}

impl fmt::Debug for Reply {
    fn fmt<W: fmt::Write>(&self, f: &mut fmt::Formatter<W>) -> fmt::Result {
        write!(f, "{self}")
    }
}
