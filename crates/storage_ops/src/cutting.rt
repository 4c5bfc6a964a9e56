//! Pages are stored no more, and segments are truncated.

ghost use Rattle.std.specs.Prelude.{◌≡◌, ◌<◌, ◌≤◌, ◌/◌, ◌%◌, nat_le, true, false, ◌&&◌, ◌==◌, Ok, None};
ghost use Rattle.tree_model.specs.Tree.{Node};
ghost use Rattle.flat_model.specs.Branches.{segment_at};
ghost use Rattle.page_table.specs.declared.Ptw.TheVariants.{Null};
ghost use Rattle.active_segs.specs.Active.{IsActive};
ghost use Rattle.page_control.specs.Tied.{is_away, is_out};
ghost use Rattle.seg_control.specs.Control.{word_of};
ghost use Rattle.script.specs.Plans.{Plan};
ghost use Rattle.flat_model.specs.Cuts.{cleared, cut_once, has_cleared, without_pages};
ghost use Rattle.flat_model.specs.Sizes.{after_truncate, cut_off, truncate_reply};
ghost use Rattle.flat_model.specs.Store.{Store as Flat};
ghost use Rattle.storage_ops.specs.Shown.{Shows, answered, home_of, pages_in};
ghost use Rattle.storage_ops.specs.Cut.{CutsPages, IsTakenFrom, IsTakenPast, IsTakenPastAt, KeepsRest};
ghost use Rattle.storage_ops.specs.Cut.{Unstores, is_here, leaves};
ghost use Rattle.storage_ops.specs.CutOff.{CountsOthers, LosesPage, MayLose, cut_at, cut_by, is_cleared};
ghost use Rattle.storage_ops.specs.CutOff.{page_cleared, paged, pages_cut, pages_from};

use crate::store::{Store, look};
use active_segs::Ast;
use book::Reply;
use mnames::Path;
use page_control::Home;
use page_table::Ptw;
use tree_commands::{pages_of, segment_at};
use volumes::Drive;

/// The words of a page.
const PAGE: u32 = 1024;

/// The word of a page of an active segment; `Null` past the end of its page table.
fn word_of(ast: &Ast, uid: u32, page: u32) -> Ptw
    requires { IsActive ast.now.entries uid }
    ensures { result ≡ word_of ast.now uid page }
{
    let Some(place) = ast.search(uid) else {
        unreachable!();
    };
    let table = ast.table(place);
    if page < table.size() {
        table.get(page)
    } else {
        Ptw::Null
    }
}

/// Whether no reference goes through the word of a stored page.
fn is_away(word: Ptw) -> bool
    ensures { result ≡ is_away word }
{
    matches!(word, Ptw::Out(_) | Ptw::Leaving(_))
}

/// The frame that a page is on its way out of.
fn leaves(word: Ptw) -> Option<u32>
    ensures { result ≡ leaves word }
{
    match word {
        Ptw::Leaving(f) => Some(f),
        _ => None,
    }
}

impl<D: Drive> Store<D> {
    /// A stored page of an active segment is stored no more, and its account is credited.
    fn drop_page(&mut self, uid: u32, page: u32, home: Home)
        requires still { self.old.segs.moving ≡ None }
        requires may { MayLose self.old uid page home }
        requires away { is_away (word_of self.old.segs.ast uid page) ≡ true }
        ensures { LosesPage D.pages self.old self.new uid page }
    {
        look(&self.segs);
        self.segs.drop_page(uid, page, home);
        self.accounts.credit(uid, 1);
    }

    /// A page of an active segment is stored no more, if it was.
    fn unstore(&mut self, uid: u32, page: u32, home: Home)
        requires still { self.old.segs.moving ≡ None }
        requires may { MayLose self.old uid page home }
        requires taken { is_here (word_of self.old.segs.ast uid page) ≡ false }
        ensures { LosesPage D.pages self.old self.new uid page }
    {
        if is_away(word_of(self.segs.ast(), uid, page)) {
            self.drop_page(uid, page, home);
        }
    }

    /// The pages of an active segment from one on are stored no more. It looks at the words of those pages alone.
    pub(crate) fn drop_from(&mut self, uid: u32, from: u32)
        requires still { self.old.segs.moving ≡ None }
        requires active { IsActive self.old.segs.ast.entries uid }
        requires taken { IsTakenFrom self.old.segs uid from }
        ensures rest { Unstores self.old self.new uid (λ q. nat_le from q) }
        ensures shown { (p : Plan) (s : Flat) → Shows D.pages p s self.old
            → Shows D.pages p (without_pages s uid (λ q. nat_le from q)) self.new }
        ensures exact { paged D.pages self.new uid ≡ pages_cut (paged D.pages self.old uid)
            (home_of self.old.accounts uid) uid (pages_from from (pages_in self.old.accounts.nodes uid)) }
        ensures others { CountsOthers self.old.accounts self.new.accounts uid }
    {
        look(&self.segs);
        let home = self.home(uid);
        for page in from..pages_of(&self.accounts, uid) {
            self.unstore(uid, page, home);
        }
    }

    /// The words of a page that isn't on its record alone become 0 from a place on. Whether it is stored, and all zeros
    /// then.
    fn clear_page(&mut self, uid: u32, page: u32, at: u32) -> bool
        requires at { at ≤ 1024 }
        requires active { IsActive self.old.segs.ast.entries uid }
        requires taken { is_here (word_of self.old.segs.ast uid page) ≡ false }
        requires out { is_out (word_of self.old.segs.ast uid page) ≡ false }
        ensures rest { Unstores self.old self.new uid (λ q. false) }
        ensures away { result ≡ true → is_away (word_of self.old.segs.ast uid page) ≡ true }
        ensures shown { (p : Plan) (s : Flat) → Shows D.pages p s self.old
            → Shows D.pages p (cleared s uid page at) self.new }
        ensures zero { (p : Plan) (s : Flat) → Shows D.pages p s self.old → result ≡ has_cleared s uid page at }
        ensures exact { paged D.pages self.new uid
            ≡ page_cleared (paged D.pages self.old uid) at (word_of self.old.segs.ast uid page) }
        ensures told { result ≡ is_cleared (paged D.pages self.old uid) at (word_of self.old.segs.ast uid page) }
        ensures others { CountsOthers self.old.accounts self.new.accounts uid }
    {
        look(&self.segs);
        match leaves(word_of(self.segs.ast(), uid, page)) {
            Some(f) => self.segs.cut_from(f, at),
            None => false,
        }
    }

    /// The words of the page that an offset cuts become 0 from it on. A page of zeros is stored no more, and told of.
    fn cut_page(&mut self, uid: u32, words: u32) -> bool
        requires still { self.old.segs.moving ≡ None }
        requires past { IsTakenPast self.old.segs uid words }
        requires out { is_out (word_of self.old.segs.ast uid (words / 1024)) ≡ false }
        ensures rest { Unstores self.old self.new uid (λ q. result && q == words / 1024) }
        ensures shown { (p : Plan) (s : Flat) → Shows D.pages p s self.old
            → Shows D.pages p (cut_once s uid words) self.new }
        ensures exact { paged D.pages self.new uid ≡ cut_by (paged D.pages self.old uid)
            (home_of self.old.accounts uid) uid (words / 1024) (words % 1024)
            (word_of self.old.segs.ast uid (words / 1024)) }
        ensures others { CountsOthers self.old.accounts self.new.accounts uid }
    {
        look(&self.segs);
        let home = self.home(uid);
        let page = words / PAGE;
        if self.clear_page(uid, page, words % PAGE) {
            self.drop_page(uid, page, home);
            true
        } else {
            false
        }
    }

    /// The words of an active segment from an offset on become 0, and the pages that are lost by it are stored no more.
    fn cut_off(&mut self, uid: u32, words: u32)
        requires still { self.old.segs.moving ≡ None }
        requires past { IsTakenPast self.old.segs uid words }
        ensures pages { CutsPages self.old self.new uid words }
        ensures shown { (p : Plan) (s : Flat) → Shows D.pages p s self.old
            → Shows D.pages p (cut_off s uid words) self.new }
        ensures exact { paged D.pages self.new uid ≡ cut_at (paged D.pages self.old uid)
            (home_of self.old.accounts uid) uid (pages_in self.old.accounts.nodes uid) words }
        ensures others { CountsOthers self.old.accounts self.new.accounts uid }
    {
        let page = words / PAGE;
        if words % PAGE == 0 {
            self.drop_from(uid, page);
        } else {
            self.drop_from(uid, page + 1);
            self.cut_page(uid, words);
        }
    }

    /// Makes the words of a segment from an offset on 0, and gives `Done`, or what refuses it. Its pages that lie past
    /// the offset, and the one that is cut where then all zeros, are stored no more, and are credited. The segment must
    /// be active, no reference must go through the words of those pages, and the one that is cut must not be on its
    /// record alone. (Source: Bensoussan, Clingen and Daley 1972.)
    pub fn truncate(&mut self, path: &Path, words: u32) -> Reply
        requires still { self.old.segs.moving ≡ None }
        requires past { IsTakenPastAt self.old.accounts self.old.segs path.now words }
        ensures answer { (p : Plan) (s : Flat) → Shows D.pages p s self.old → result ≡ truncate_reply s path.now }
        ensures effect { (p : Plan) (s : Flat) → Shows D.pages p s self.old
            → Shows D.pages p (answered result s (after_truncate s path.now words)) self.new }
        ensures rest { KeepsRest self.old self.new }
        ensures pages { (n : Node) → segment_at self.old.accounts.nodes path.now ≡ Ok n
            → CutsPages self.old self.new n.uid words }
        ensures exact { (n : Node) → segment_at self.old.accounts.nodes path.now ≡ Ok n
            → paged D.pages self.new n.uid ≡ cut_at (paged D.pages self.old n.uid)
            (home_of self.old.accounts n.uid) n.uid (pages_in self.old.accounts.nodes n.uid) words }
        ensures others { (n : Node) → segment_at self.old.accounts.nodes path.now ≡ Ok n
            → CountsOthers self.old.accounts self.new.accounts n.uid }
    {
        let uid = match segment_at(&self.accounts, path) {
            Ok(node) => node.uid,
            Err(reply) => return reply,
        };
        self.cut_off(uid, words);
        Reply::Done
    }
}
