ghost use Rattle.std.specs.Prelude.{◌≡◌, ◌==◌, ◌<◌, ◌≤◌, true, false, [], ◌∷◌, map, length, Some, None, IfSome, IfNone};
ghost use Rattle.std.specs.List.{position, slice_split};
ghost use Rattle.std.specs.Str.{bytes_eq};
ghost use Rattle.book.specs.Entries.{entry_text};
ghost use Rattle.book.specs.Reading.{is_plain, number_of, number_or_none, word_of, dotted_of};
ghost use Rattle.book.specs.Reading.{named_reply, bare_reply, numbered_reply};
ghost use Rattle.book.specs.Reading.{status_reply, triple, reply_of, what_of, dropped_of, named_of, gone, back};
ghost use Rattle.book.specs.Reading.{filled, fill_of, named_or_plain, pair_reply};
ghost use Rattle.book.specs.Reading.{fault_of, do_of, of_one, of_two, of_three, plain_of, entry_of, entry_of_words};
ghost use Rattle.book.specs.Reading.{is_space, IsEntry};

use crate::entries::Entry;
use crate::replies::Reply::{
    AclFull, Beyond, Deep, Device, Done, Exists, Full, Gone, HasQuota, IsDir, IsSeg, Length,
    NoAccess, NoEntry, NoPath, NoRecord, NotDir, NotEmpty, Quota, Room, Root, TooLittle, Unknown,
};
use crate::replies::{Reply, bare_text};
use arrayvec::ArrayVec;
use assoc_mem::What;
use mword::{Word, read_octal};
use script::read_number;

/// The most words that an entry has: a command's entry whose reply is what a segment or a directory is like.
const MOST_WORDS: usize = 10;

/// What an entry takes away or gives back: the page in a frame, or a descriptor of a process.
#[derive(Clone, Copy)]
enum Named {
    Page(u32),
    Seg(u32, u32),
}

/// Whether a word is this text, byte by byte up to the first that differs.
#[inline(always)]
#[tactic(auto, using(crate::proofs::TextLaws::text_compared, std::proofs::lemmas::Grind::common_steps))]
fn is_text(word: &[u8], text: &[u8]) -> bool
    ensures { result ≡ bytes_eq word.now text.now }
{
    if word.len() != text.len() {
        return false;
    }
    for i in 0..text.len() {
        if word[i] != text[i] {
            return false;
        }
    }
    true
}

/// Whether a word has 1 to 10 bytes, and its first is a zero only where it is the only one.
fn is_plain(word: &[u8]) -> bool
    ensures { result ≡ is_plain word.now }
{
    !word.is_empty() && word.len() <= 10 && (word[0] != b'0' || word.len() == 1)
}

/// The number that a word is: decimal digits without a leading zero, of 32 bits.
#[tactic(auto, using(crate::proofs::Numbers::plain_number, crate::proofs::Numbers::not_plain))]
fn number(word: &[u8]) -> Option<u32>
    ensures { result ≡ number_of word.now }
{
    if is_plain(word) {
        read_number(word)
    } else {
        None
    }
}

/// A number, or `-` for none.
fn number_or_none(word: &[u8]) -> Option<Option<u32>>
    ensures { result ≡ number_or_none word.now }
{
    if is_text(word, b"-") {
        return Some(None);
    }
    Some(Some(number(word)?))
}

/// The word that twelve octal digits are.
#[tactic(auto, unfolding(crate::specs::Reading::word_of))]
fn octal_word(text: &[u8]) -> Option<Word>
    ensures { result ≡ word_of text.now }
{
    if text.len() == 12 {
        read_octal(text)
    } else {
        None
    }
}

/// The first of some replies of one word whose text a word is.
fn named_reply(replies: &[Reply], word: &[u8]) -> Option<Reply>
    ensures { result ≡ named_reply replies.now word.now }
{
    for reply in replies {
        if word == bare_text(reply).as_bytes() {
            return Some(*reply);
        }
    }
    None
}

/// The reply that is this word, of those of one word. (Source: own.)
pub fn bare_reply(word: &[u8]) -> Option<Reply>
    ensures { result ≡ bare_reply word.now }
{
    let replies = [
        Done, Unknown, Gone, NoAccess, Length, Quota, NoRecord, Device, NoPath, NotDir, IsDir,
        IsSeg, Exists, Deep, Room, NoEntry, Full, AclFull, Beyond, NotEmpty, HasQuota, Root,
        TooLittle,
    ];
    named_reply(&replies, word)
}

/// A reply of a word and a number.
fn numbered_reply(word: &[u8], number: u32) -> Option<Reply>
    ensures { result ≡ numbered_reply word.now number }
{
    if is_text(word, b"made") {
        Some(Reply::Made(number))
    } else if is_text(word, b"known") {
        Some(Reply::Known(number))
    } else if is_text(word, b"over") {
        Some(Reply::Over(number))
    } else {
        None
    }
}

/// A reply of two words.
fn pair_reply(kind: &[u8], field: &[u8]) -> Option<Reply>
    ensures { result ≡ pair_reply kind.now field.now }
{
    if is_text(kind, b"word") {
        Some(Reply::Word(octal_word(field)?))
    } else {
        numbered_reply(kind, number(field)?)
    }
}

/// What a segment or a directory is like, by its first word and those before its counts.
fn status(kind: &[u8], of_first: &[u8], of_second: &[u8], numbers: (u32, u32, u32)) -> Option<Reply>
    ensures { result ≡ status_reply kind.now of_first.now of_second.now numbers.0 (numbers.1, numbers.2) }
{
    let (uid, first, second) = numbers;
    let counts_pages = is_text(of_first, b"length") && is_text(of_second, b"stored");
    let counts_quota = is_text(of_first, b"quota") && is_text(of_second, b"used");
    if is_text(kind, b"seg") && counts_pages {
        Some(Reply::SegIs {
            uid,
            length: first,
            stored: second,
        })
    } else if is_text(kind, b"dir") && counts_quota {
        Some(Reply::DirIs {
            uid,
            quota: first,
            used: second,
        })
    } else {
        None
    }
}

/// Three numbers.
fn three(first: &[u8], second: &[u8], third: &[u8]) -> Option<(u32, u32, u32)>
    ensures { result ≡ triple (number_of first.now) (number_of second.now) (number_of third.now) }
{
    Some((number(first)?, number(second)?, number(third)?))
}

/// The reply of some words.
#[tactic(auto, unfolding(crate::specs::Reading::reply_of))]
fn reply(fields: &[&[u8]]) -> Option<Reply>
    ensures { result ≡ reply_of (map (λ w. w.now) fields.now) }
{
    match fields {
        [word] => bare_reply(word),
        [kind, field] => pair_reply(kind, field),
        [kind, uid, of_first, first, of_second, second] => {
            status(kind, of_first, of_second, three(uid, first, second)?)
        }
        _ => None,
    }
}

/// What is dropped from an associative memory.
fn what(fields: &[&[u8]]) -> Option<What>
    ensures { result ≡ what_of (map (λ w. w.now) fields.now) }
{
    match fields {
        [kind] if is_text(kind, b"all") => Some(What::All),
        [kind, field] => {
            if is_text(kind, b"page") {
                Some(What::Page(number(field)?))
            } else if is_text(kind, b"seg") {
                Some(What::Seg(number(field)?))
            } else {
                None
            }
        }
        _ => None,
    }
}

/// A processor, and what it drops.
fn dropped(fields: &[&[u8]]) -> Option<(u32, What)>
    ensures { result ≡ dropped_of (map (λ w. w.now) fields.now) }
{
    match fields {
        [cpu, rest @ ..] => Some((number(cpu)?, what(rest)?)),
        [] => None,
    }
}

/// What is taken away or given back.
fn thing_named(fields: &[&[u8]]) -> Option<Named>
    ensures { result ≡ named_of (map (λ w. w.now) fields.now) }
{
    match fields {
        [kind, frame] if is_text(kind, b"page") => Some(Named::Page(number(frame)?)),
        [kind, process, segment] if is_text(kind, b"seg") => {
            Some(Named::Seg(number(process)?, number(segment)?))
        }
        _ => None,
    }
}

/// It is gone.
fn gone(named: Named) -> Entry
    ensures { result ≡ gone named }
{
    match named {
        Named::Page(frame) => Entry::GonePage { frame },
        Named::Seg(process, number) => Entry::GoneSeg { process, number },
    }
}

/// It is back.
fn back(named: Named) -> Entry
    ensures { result ≡ back named }
{
    match named {
        Named::Page(frame) => Entry::BackPage { frame },
        Named::Seg(process, number) => Entry::BackSeg { process, number },
    }
}

/// A descriptor, or the page table word of a frame, comes into a processor's associative memory.
fn filled(kind: &[u8], cpu: u32, field: u32) -> Option<Entry>
    ensures { result ≡ filled kind.now (cpu, field) }
{
    if is_text(kind, b"seg") {
        Some(Entry::FillSeg { cpu, number: field })
    } else if is_text(kind, b"page") {
        Some(Entry::FillPage { cpu, frame: field })
    } else {
        None
    }
}

fn fill(fields: &[&[u8]]) -> Option<Entry>
    ensures { result ≡ fill_of (map (λ w. w.now) fields.now) }
{
    match fields {
        [cpu, kind, field] => filled(kind, number(cpu)?, number(field)?),
        _ => None,
    }
}

fn fault(fields: &[&[u8]]) -> Option<Entry>
    ensures { result ≡ fault_of (map (λ w. w.now) fields.now) }
{
    match fields {
        [process] => Some(Entry::Fault {
            process: number_or_none(process)?,
        }),
        _ => None,
    }
}

/// The process and the place of a command.
#[tactic(auto, using(crate::proofs::Words::no_dot, std::proofs::lemmas::Grind::common_steps))]
fn dotted(word: &[u8]) -> Option<(u32, u32)>
    ensures { result ≡ dotted_of word.now }
{
    let dot = place_of(b'.', word)?;
    let process = number(&word[..dot])?;
    let place = number(&word[dot + 1..])?;
    Some((process, place))
}

fn command(fields: &[&[u8]]) -> Option<Entry>
    ensures { result ≡ do_of (map (λ w. w.now) fields.now) }
{
    match fields {
        [command, cpu, frame, words @ ..] => {
            let (process, place) = dotted(command)?;
            Some(Entry::Do {
                process,
                place,
                cpu: number(cpu)?,
                frame: number_or_none(frame)?,
                reply: reply(words)?,
            })
        }
        _ => None,
    }
}

/// An entry of a word and a number.
fn of_one(word: &[u8], number: u32) -> Option<Entry>
    ensures { result ≡ of_one word.now number }
{
    if is_text(word, b"online") {
        Some(Entry::Online { cpu: number })
    } else if is_text(word, b"leave") {
        Some(Entry::Leave { cpu: number })
    } else if is_text(word, b"activate") {
        Some(Entry::Activate { uid: number })
    } else if is_text(word, b"deactivate") {
        Some(Entry::Deactivate { uid: number })
    } else if is_text(word, b"lose") {
        Some(Entry::Lose { frame: number })
    } else if is_text(word, b"take") {
        Some(Entry::Take { frame: number })
    } else {
        None
    }
}

/// An entry of a word and two numbers.
fn of_two(word: &[u8], first: u32, second: u32) -> Option<Entry>
    ensures { result ≡ of_two word.now (first, second) }
{
    if is_text(word, b"load") {
        Some(Entry::Load {
            cpu: first,
            process: second,
        })
    } else if is_text(word, b"release") {
        Some(Entry::Release {
            uid: first,
            page: second,
        })
    } else if is_text(word, b"cut") {
        Some(Entry::Cut {
            process: first,
            number: second,
        })
    } else {
        None
    }
}

/// An entry of a word and three numbers.
fn of_three(word: &[u8], first: u32, second: u32, third: u32) -> Option<Entry>
    ensures { result ≡ of_three word.now (first, second, third) }
{
    if is_text(word, b"in") {
        Some(Entry::Here {
            frame: first,
            uid: second,
            page: third,
        })
    } else if is_text(word, b"start") {
        Some(Entry::Start {
            frame: first,
            uid: second,
            page: third,
        })
    } else if is_text(word, b"connect") {
        Some(Entry::Connect {
            process: first,
            number: second,
            uid: third,
        })
    } else if is_text(word, b"moved") {
        Some(Entry::Moved {
            process: first,
            uid: second,
            volume: third,
        })
    } else {
        None
    }
}

fn plain(word: &[u8], fields: &[&[u8]]) -> Option<Entry>
    ensures { result ≡ plain_of word.now (map (λ w. w.now) fields.now) }
{
    match fields {
        [a] => of_one(word, number(a)?),
        [a, b] => of_two(word, number(a)?, number(b)?),
        [a, b, c] => of_three(word, number(a)?, number(b)?, number(c)?),
        _ => None,
    }
}

/// What is gone or back, a call that failed, or an entry of numbers.
fn named_or_plain(word: &[u8], fields: &[&[u8]]) -> Option<Entry>
    ensures { result ≡ named_or_plain word.now (map (λ w. w.now) fields.now) }
{
    if is_text(word, b"gone") {
        Some(gone(thing_named(fields)?))
    } else if is_text(word, b"back") {
        Some(back(thing_named(fields)?))
    } else if is_text(word, b"fault") {
        fault(fields)
    } else {
        plain(word, fields)
    }
}

/// The entry of a first word and the others.
#[tactic(auto, unfolding(crate::specs::Reading::entry_of))]
fn entry(word: &[u8], fields: &[&[u8]]) -> Option<Entry>
    ensures { result ≡ entry_of word.now (map (λ w. w.now) fields.now) }
{
    if is_text(word, b"do") {
        command(fields)
    } else if is_text(word, b"fill") {
        fill(fields)
    } else if is_text(word, b"signal") {
        let (cpu, what) = dropped(fields)?;
        Some(Entry::Signal { cpu, what })
    } else if is_text(word, b"clear") {
        let (cpu, what) = dropped(fields)?;
        Some(Entry::Clear { cpu, what })
    } else {
        named_or_plain(word, fields)
    }
}

/// The place of the first such byte of a text.
fn place_of(byte: u8, text: &[u8]) -> Option<usize>
    ensures { result ≡ position (λ b. b == byte) text.now }
{
    text.iter().position(|b| *b == byte)
}

/// Appends the words of a line between its spaces. False exactly where there are more than an entry has.
#[tactic(auto, using(crate::proofs::Words::words_taken, std::proofs::lemmas::Grind::common_steps))]
fn read_words<'a>(words: &mut ArrayVec<&'a [u8], MOST_WORDS>, line: &'a [u8]) -> bool
    requires none { words.old.items ≡ [] }
    ensures yes { result ≡ true → map (λ w. w.now) words.new.items ≡ slice_split is_space line.now }
    ensures no { result ≡ false → 10 < length (slice_split is_space line.now) }
{
    let mut start = 0;
    for (i, byte) in line.iter().enumerate() {
        if *byte == b' ' {
            if words.is_full() {
                return false;
            }
            words.push(&line[start..i]);
            start = i + 1;
        }
    }
    if words.is_full() {
        return false;
    }
    words.push(&line[start..]);
    true
}

/// The entry of some words.
fn entry_of_words(words: &[&[u8]]) -> Option<Entry>
    ensures { result ≡ entry_of_words (map (λ w. w.now) words.now) }
{
    match words {
        [word, fields @ ..] => entry(word, fields),
        [] => None,
    }
}

/// The entry whose text a line is, without its line feed. `None` exactly where the line is no entry's text. It takes no
/// memory.
pub fn read_entry(line: &[u8]) -> Option<Entry>
    ensures some { IfSome result (λ e. entry_text e ≡ line.now) }
    ensures back { (e : Entry) → IsEntry e → entry_text e ≡ line.now → result ≡ Some e }
{
    let mut words = ArrayVec::new();
    if read_words(&mut words, line) {
        entry_of_words(&words)
    } else {
        None
    }
}
