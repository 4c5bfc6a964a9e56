ghost use Rattle.std.specs.Prelude.{◌≡◌, ◌≢◌, ◌<◌, ◌/◌, ◌==◌, ◌&&◌, ℕ, not, is_some, true, false, Some, OnOk, OnErr};
ghost use Rattle.script.specs.References.{alters, new_word};
ghost use Rattle.script.specs.Plans.{Plan, who_of};
ghost use Rattle.tree_model.specs.Tree.{Node, node_in};
ghost use Rattle.tree_model.specs.Trees.{has_segment};
ghost use Rattle.flat_model.specs.Moves.{is_held_at};
ghost use Rattle.flat_model.specs.Pages.{is_stored};
ghost use Rattle.flat_model.specs.References.{reply_at, room_reply};
ghost use Rattle.flat_model.specs.References.{stores_page, word_reply, written, written_by};
ghost use Rattle.flat_model.specs.Commands.{takes_effect};
ghost use Rattle.flat_model.specs.Store.{Store};
ghost use Rattle.flat_store.specs.Shown.{Holds, has_room, may_write, page_at, page_reply, pages_in};

use crate::NoMemory;
use crate::gauges::{fill_at, is_full_at};
use crate::holdings::{Holdings, pages_of};
use book::Reply;
use mnames::Who;
use mword::{Page, Word};
use script::RefKind;
use tree_commands::volume_of;

/// What a reference is answered that isn't refused, where this word stood before.
fn word_reply(old: Word, kind: &RefKind) -> Reply
    ensures { result ≡ word_reply old kind.now }
{
    match kind {
        RefKind::Read => Reply::Word(old),
        RefKind::Write(_) => Reply::Done,
        RefKind::Add(_) => Reply::Word(kind.new_word(old)),
    }
}

/// Whether a reference brings a word other than 0 into a page, where this word stood before, and the page isn't stored.
fn brings_word(old: Word, stored: bool, kind: &RefKind) -> bool
    ensures { result ≡ (alters kind.now && (not (new_word old kind.now == 0) && not stored)) }
{
    kind.alters() && kind.new_word(old).value() != 0 && !stored
}

impl Holdings {
    /// The word at an offset of a segment; 0 where none was written.
    pub(crate) fn word(&self, uid: u32, offset: u32) -> Word
        ensures { (p : Plan) (s : Store) → Holds p self.now s → result ≡ s.words uid offset }
    {
        match self.pages.get(uid, offset / Page::WORDS) {
            Some(page) => page.get(offset % Page::WORDS),
            None => Word::ZERO,
        }
    }

    /// The word at an offset of a segment, 0 where none was written, and whether its page is stored.
    fn look(&self, uid: u32, offset: u32) -> (Word, bool)
        ensures word { (p : Plan) (s : Store) → Holds p self.now s → result.0 ≡ s.words uid offset }
        ensures stored { (p : Plan) (s : Store) → Holds p self.now s
            → result.1 ≡ is_stored s.stored uid (offset / 1024) }
        ensures there { result.1 ≡ is_some (page_at self.now.pages uid (offset / 1024)) }
    {
        match self.pages.get(uid, offset / Page::WORDS) {
            Some(page) => (page.get(offset % Page::WORDS), true),
            None => (Word::ZERO, false),
        }
    }

    /// Whether a page is stored.
    pub(crate) fn is_stored(&self, uid: u32, page: u32) -> bool
        ensures { (p : Plan) (s : Store) → Holds p self.now s → result ≡ is_stored s.stored uid page }
    {
        self.pages.has(uid, page)
    }

    /// Whether a reference brings a word other than 0 into a page that isn't stored.
    pub(crate) fn stores_page(&self, uid: u32, offset: u32, kind: &RefKind) -> bool
        ensures { (p : Plan) (s : Store) → Holds p self.now s → result ≡ stores_page s uid offset kind.now }
    {
        if !kind.alters() {
            return false;
        }
        let (word, stored) = self.look(uid, offset);
        brings_word(word, stored, kind)
    }

    /// What a reference is answered that stores a page more of a segment: `Quota` where its account has used up its
    /// quota, `NoRecord` where all records of its volume are taken and no volume has room for it; else as it would be.
    fn room_reply(&self, uid: u32, volume: u32, otherwise: Reply) -> Reply
        requires { has_segment self.now.accounts.nodes uid ≡ true }
        ensures { (p : Plan) (s : Store) (n : Node) → Holds p self.now s → n.uid ≡ uid → n.volume ≡ volume
            → result ≡ room_reply p s n otherwise }
    {
        if self.accounts.may_charge(uid).is_err() {
            Reply::Quota
        } else if is_full_at(&self.records, volume) && self.room_for(uid).is_none() {
            Reply::NoRecord
        } else {
            otherwise
        }
    }

    /// What a principal is answered to a reference to a segment, which may have been deleted.
    pub(crate) fn reply_at(&self, who: &Who, uid: u32, offset: u32, kind: &RefKind) -> Reply
        ensures { (p : Plan) (s : Store) (k : ℕ) → Holds p self.now s → who.now ≡ who_of p k
            → result ≡ reply_at p s k offset kind.now (node_in s.nodes uid) }
    {
        let Some(node) = self.accounts.node(uid) else {
            return Reply::Gone;
        };
        if !kind.permitted_by(node.acl.access_of(who)) {
            return Reply::NoAccess;
        }
        if offset / Page::WORDS >= node.length {
            return Reply::Length;
        }
        self.page_reply(uid, node.volume, offset, kind)
    }

    /// What a reference is answered that neither access nor the length of the segment refuses.
    fn page_reply(&self, uid: u32, volume: u32, offset: u32, kind: &RefKind) -> Reply
        requires { has_segment self.now.accounts.nodes uid ≡ true }
        ensures { (p : Plan) (s : Store) (n : Node) → Holds p self.now s → n.uid ≡ uid → n.volume ≡ volume
            → result ≡ page_reply p s offset kind.now n }
    {
        let (word, stored) = self.look(uid, offset);
        let reply = word_reply(word, kind);
        if brings_word(word, stored, kind) {
            self.room_reply(uid, volume, reply)
        } else {
            reply
        }
    }

    /// Whether there is room for a page more of a segment.
    fn has_room(&self, uid: u32) -> bool
        requires { has_segment self.now.accounts.nodes uid ≡ true }
        ensures { (p : Plan) (s : Store) → Holds p self.now s → result ≡ has_room p s uid }
    {
        let volume = volume_of(&self.accounts, uid);
        self.accounts.may_charge(uid).is_ok() && !is_full_at(&self.records, volume)
    }

    /// A word of a segment becomes what a reference makes of it, where its page is stored. Whether it is; where it
    /// isn't, nothing is changed.
    fn alter(&mut self, uid: u32, offset: u32, kind: &RefKind) -> bool
        ensures there { result ≡ is_some (page_at self.old.pages uid (offset / 1024)) }
        ensures yes { result ≡ true → (p : Plan) (s : Store) → Holds p self.old s
            → Holds p self.new (written s uid offset (new_word (s.words uid offset) kind.now)) }
        ensures no { result ≡ false → self.new ≡ self.old }
    {
        let page = offset / Page::WORDS;
        self.pages.alter(uid, page, offset % Page::WORDS, kind)
    }

    /// Writes a word other than 0 into a page that isn't stored, and is from then on, if there is room for it.
    fn store_word(&mut self, uid: u32, offset: u32, word: Word) -> Result<(), NoMemory>
        requires segment { has_segment self.old.accounts.nodes uid ≡ true }
        requires within { offset / 1024 < pages_in self.old.accounts.nodes uid }
        requires absent { is_some (page_at self.old.pages uid (offset / 1024)) ≡ false }
        requires other { word ≢ 0 }
        ensures ok { OnOk result ((p : Plan) (s : Store) → Holds p self.old s → has_room p s uid ≡ true
            → Holds p self.new (written s uid offset word)) }
        ensures err { OnErr result (self.new ≡ self.old) }
    {
        if !self.has_room(uid) {
            return Ok(());
        }
        let volume = volume_of(&self.accounts, uid);
        let page = offset / Page::WORDS;
        self.pages.put(uid, page, offset % Page::WORDS, word)?;
        match self.accounts.charge(uid) {
            Ok(()) => fill_at(&mut self.records, volume),
            Err(_) => unreachable!(),
        }
        Ok(())
    }

    /// Writes a word of a segment whose page isn't stored. A page that gets a word other than 0 is from then on, if
    /// there is room.
    fn write(&mut self, uid: u32, offset: u32, word: Word) -> Result<(), NoMemory>
        requires absent { is_some (page_at self.old.pages uid (offset / 1024)) ≡ false }
        requires segment { has_segment self.old.accounts.nodes uid ≡ true }
        requires within { offset / 1024 < pages_in self.old.accounts.nodes uid }
        ensures ok { OnOk result ((p : Plan) (s : Store) → Holds p self.old s → may_write p s uid offset word ≡ true
            → Holds p self.new (written s uid offset word)) }
        ensures err { OnErr result (self.new ≡ self.old) }
    {
        if word.value() == 0 {
            return Ok(());
        }
        self.store_word(uid, offset, word)
    }

    /// Does what a reference to a segment does that is neither refused nor held back.
    ///
    /// # Errors
    /// `NoMemory` is want of memory for a page; then nothing is changed.
    pub(crate) fn refer(&mut self, uid: u32, offset: u32, kind: &RefKind) -> Result<(), NoMemory>
        ensures ok { OnOk result ((p : Plan) (s : Store) (k : ℕ) → Holds p self.old s
            → takes_effect (reply_at p s k offset kind.now (node_in s.nodes uid)) ≡ true
            → is_held_at p s k offset kind.now (node_in s.nodes uid) ≡ false
            → Holds p self.new (written_by s offset kind.now (Some uid))) }
        ensures err { OnErr result (self.new ≡ self.old) }
    {
        if !kind.alters() {
            return Ok(());
        }
        let Some(node) = self.accounts.node(uid) else {
            return Ok(());
        };
        if offset / Page::WORDS >= node.length {
            return Ok(());
        }
        if self.alter(uid, offset, kind) {
            return Ok(());
        }
        self.write(uid, offset, kind.new_word(Word::ZERO))
    }
}
