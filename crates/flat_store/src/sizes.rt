ghost use Rattle.std.specs.Prelude.{◌≡◌, ◌≤◌, true};
ghost use Rattle.script.specs.Plans.{Plan};
ghost use Rattle.flat_model.specs.Commands.{takes_effect};
ghost use Rattle.flat_model.specs.Pages.{is_stored_from};
ghost use Rattle.flat_model.specs.Sizes.{length_reply, truncate_reply, after_length, after_truncate};
ghost use Rattle.flat_model.specs.Store.{Store};
ghost use Rattle.flat_model.specs.Cuts.{cleared, cut_once, has_cleared};
ghost use Rattle.flat_store.specs.Shown.{Holds};

use crate::holdings::Holdings;
use book::Reply;
use mnames::Path;
use mword::Page;
use tree_commands::segment_at;

impl Holdings {
    /// Whether a page of a segment is stored whose number is this one or above.
    fn is_stored_from(&self, uid: u32, from: u32) -> bool
        ensures { (p : Plan) (s : Store) → Holds p self.now s → result ≡ is_stored_from s.stored uid from }
    {
        self.pages.has_from(uid, from)
    }

    /// What the change of a segment's length is answered.
    pub(crate) fn length_reply(&self, path: &Path, pages: u32) -> Reply
        ensures { (p : Plan) (s : Store) → Holds p self.now s → result ≡ length_reply s path.now pages }
    {
        match segment_at(&self.accounts, path) {
            Ok(node) => {
                if self.is_stored_from(node.uid, pages) {
                    Reply::Beyond
                } else {
                    Reply::Done
                }
            }
            Err(reply) => reply,
        }
    }

    /// Changes a segment's length, unless that is refused.
    pub(crate) fn set_length(&mut self, path: &Path, pages: u32)
        ensures { (p : Plan) (s : Store) → Holds p self.old s → takes_effect (length_reply s path.now pages) ≡ true
            → Holds p self.new (after_length s path.now pages) }
    {
        let uid = match segment_at(&self.accounts, path) {
            Ok(node) => node.uid,
            Err(_) => return,
        };
        if !self.is_stored_from(uid, pages) {
            self.accounts.set_length(uid, pages);
        }
    }

    /// The words of a page from a place on become 0. Whether it is stored, and all zeros then.
    fn clear_page(&mut self, uid: u32, page: u32, at: u32) -> bool
        requires { at ≤ 1024 }
        ensures page { (p : Plan) (s : Store) → Holds p self.old s → Holds p self.new (cleared s uid page at) }
        ensures zero { (p : Plan) (s : Store) → Holds p self.old s → result ≡ has_cleared s uid page at }
    {
        self.pages.cut(uid, page, at)
    }

    /// The words of the page that an offset cuts become 0 from it on. A page of zeros is stored no more.
    fn cut_page(&mut self, uid: u32, words: u32)
        ensures { (p : Plan) (s : Store) → Holds p self.old s → Holds p self.new (cut_once s uid words) }
    {
        let page = words / Page::WORDS;
        if self.clear_page(uid, page, words % Page::WORDS) {
            self.drop_page(uid, page);
        }
    }

    /// Truncates a segment, unless that is refused.
    pub(crate) fn truncate(&mut self, path: &Path, words: u32)
        ensures { (p : Plan) (s : Store) → Holds p self.old s → Holds p self.new (after_truncate s path.now words) }
    {
        let uid = match segment_at(&self.accounts, path) {
            Ok(node) => node.uid,
            Err(_) => return,
        };
        self.drop_from(uid, words / Page::WORDS + 1);
        self.cut_page(uid, words);
    }
}
