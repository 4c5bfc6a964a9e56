ghost use Rattle.std.specs.Prelude.{◌≡◌, ◌≢◌, ◌<◌, ◌↔◌, ℕ, List, Some, None, length, IsSome, IsNone, IfSome, IfNone};
ghost use Rattle.known_segs.specs.Known.{uid_of, number_for, known_count, IsUnknown};
ghost use Rattle.mnames.specs.declared.modes.Mode.{Mode};
ghost use Rattle.trailers.specs.Trailer.{trailers_of};
ghost use Rattle.active_segs.specs.Active.{uid_at, IsActive};
ghost use Rattle.seg_control.specs.Control.{kst_at, sdws_at, leads_at, place_of};
ghost use Rattle.seg_control.specs.Kept.{AreLinked, MayReconnect};
ghost use Rattle.seg_control.specs.Effects.{linked, cut_one, all_cut, reconnected, made_known, forgotten};

use crate::segs::{Segs, place_in};
use descriptor_seg::{DescSeg, Sdw};
use known_segs::Kst;
use mnames::Mode;
use trailers::Trailers;
use volumes::Drive;

impl<D: Drive> Segs<D> {
    /// The trailers. Those of a place may be connected again once they are cut, and stand there as before then.
    /// (Source: Bensoussan, Clingen and Daley 1972.)
    pub fn trailers(&self) -> &Trailers
        ensures trailers { result.now ≡ self.now.links.trailers }
        ensures linked { AreLinked self.now.ast.entries self.now.links }
        ensures again { (aste : ℕ) → MayReconnect (all_cut self.now.links aste) (uid_at self.now.ast.entries aste)
            (trailers_of self.now.links.trailers aste) }
        ensures back { (aste pages : ℕ) (modes : List Mode) → aste < length self.now.links.trailers
            → length modes ≡ length (trailers_of self.now.links.trailers aste)
            → (reconnected (all_cut self.now.links aste) aste (trailers_of self.now.links.trailers aste) modes
            pages).trailers ≡ self.now.links.trailers }
    {
        self.links.trailers()
    }

    /// The known segment table of a process. (Source: Bensoussan, Clingen and Daley 1972.)
    pub fn kst(&self, process: u32) -> &Kst
        requires { process < length self.now.links.known }
        ensures kst { result.now ≡ kst_at self.now.links.known process }
        ensures linked { AreLinked self.now.ast.entries self.now.links }
    {
        self.links.kst(process)
    }

    /// The descriptor segment of a process. (Source: Bensoussan, Clingen and Daley 1972.)
    pub fn descriptors(&self, process: u32) -> &DescSeg
        requires { process < length self.now.links.known }
        ensures words { result.now ≡ sdws_at self.now.links.descriptors process }
        ensures linked { AreLinked self.now.ast.entries self.now.links }
    {
        self.links.descriptors(process)
    }

    /// Makes a segment known to a process and gives its number: the one that it has, else the least free one. `None`
    /// exactly where it isn't known and all 256 numbers are, and then nothing changes. It costs two passes over the
    /// numbers. (Source: Bensoussan, Clingen and Daley 1972.)
    pub fn make_known(&mut self, process: u32, uid: u32) -> Option<u32>
        requires { process < length self.old.links.known }
        ensures number { result ≡ number_for (kst_at self.old.links.known process) uid }
        ensures effect { self.new ≡ record self.old { links = made_known self.old.links process uid result } }
        ensures full { IsNone result ↔ ((known_count (kst_at self.old.links.known process) ≡ 256)
            × IsUnknown (kst_at self.old.links.known process) uid) }
        ensures within { IfSome result (λ n. n < 256) }
    {
        self.links.make_known(process, uid)
    }

    /// A number of a process, which isn't connected, stands for nothing from now on. (Source: Bensoussan, Clingen and
    /// Daley 1972.)
    pub fn forget(&mut self, process: u32, number: u32)
        requires process { process < length self.old.links.known }
        requires known { IsSome (uid_of (kst_at self.old.links.known process) number) }
        requires cut { leads_at self.old.links.descriptors process number ≡ None }
        ensures effect { self.new ≡ record self.old { links = forgotten self.old.links process number } }
    {
        self.links.forget(process, number);
    }

    /// A number of a process leads to the page table of the active segment that it stands for, with this mode and
    /// length, and a trailer leads back. (Source: Bensoussan, Clingen and Daley 1972; Organick 1972.)
    pub fn connect(&mut self, process: u32, number: u32, uid: u32, mode: Mode, pages: u32)
        requires process { process < length self.old.links.known }
        requires active { IsActive self.old.ast.entries uid }
        requires known { uid_of (kst_at self.old.links.known process) number ≡ Some uid }
        requires cut { leads_at self.old.links.descriptors process number ≡ None }
        ensures effect { self.new ≡ record self.old {
          links = linked self.old.links process number (place_of self.old.ast.entries uid) mode pages;
        } }
    {
        let place = place_in(&self.ast, uid);
        self.connect_to(place, process, number, mode, pages);
    }

    /// A number of a process that leads to an active segment faults from now on, and its trailer is taken out. It costs
    /// a pass over the trailers of the segment. (Source: Bensoussan, Clingen and Daley 1972; Organick 1972.)
    pub fn cut_one(&mut self, process: u32, number: u32)
        requires process { process < length self.old.links.known }
        requires connected { IsSome (leads_at self.old.links.descriptors process number) }
        ensures effect { self.new ≡ record self.old { links = cut_one self.old.links process number } }
    {
        match self.links.descriptors(process).get(number) {
            Sdw::Present { aste, .. } => self.links.cut(aste, process, number),
            Sdw::Fault => unreachable!(),
        }
    }

    /// Cuts every descriptor that leads to a place: each of those numbers faults from now on, and the place has no
    /// trailer. It goes through the trailers of that place alone. (Source: Bensoussan, Clingen and Daley 1972; Organick
    /// 1972.)
    pub fn cut_all(&mut self, aste: u32)
        requires { aste < length self.old.ast.entries }
        ensures effect { self.new ≡ record self.old { links = all_cut self.old.links aste } }
    {
        while let Some((process, number)) = self.first_trailer(aste) {
            self.cut_one(process, number);
        }
    }

    /// Connects numbers of processes to the place of the segment that they stand for, in this order, each with its mode
    /// and all with one length. The list is what `cut_all` took, and undoes it. (Source: Bensoussan, Clingen and Daley
    /// 1972; Organick 1972.)
    pub fn reconnect_all(&mut self, aste: u32, list: &[(u32, u32)], modes: &[Mode], pages: u32)
        requires active { IsSome (uid_at self.old.ast.entries aste) }
        requires modes { length modes.now ≡ length list.now }
        requires list { MayReconnect self.old.links (uid_at self.old.ast.entries aste) list.now }
        ensures effect { self.new ≡ record self.old {
          links = reconnected self.old.links aste list.now modes.now pages;
        } }
    {
        for i in 0..list.len() {
            let (process, number) = list[i];
            self.connect_to(aste, process, number, modes[i], pages);
        }
    }

    /// The oldest trailer of a place.
    fn first_trailer(&self, aste: u32) -> Option<(u32, u32)>
        requires { aste < length self.now.ast.entries }
        ensures first { IfSome result (λ pair. leads_at self.now.links.descriptors pair.0 pair.1 ≡ Some aste) }
        ensures within { IfSome result (λ pair. pair.0 < length self.now.links.known) }
        ensures none { IfNone result (all_cut self.now.links aste ≡ self.now.links) }
        ensures linked { AreLinked self.now.ast.entries self.now.links }
    {
        let trailers = self.links.trailers();
        if trailers.count(aste) == 0 {
            return None;
        }
        Some(trailers.at(aste, 0))
    }

    /// A number of a process leads to the place of the segment that it stands for.
    fn connect_to(&mut self, aste: u32, process: u32, number: u32, mode: Mode, pages: u32)
        requires process { process < length self.old.links.known }
        requires active { IsSome (uid_at self.old.ast.entries aste) }
        requires known { uid_of (kst_at self.old.links.known process) number ≡ uid_at self.old.ast.entries aste }
        requires cut { leads_at self.old.links.descriptors process number ≡ None }
        ensures effect { self.new ≡ record self.old { links = linked self.old.links process number aste mode pages } }
        ensures others { (q n : ℕ) → (q ≡ process → n ≢ number)
            → leads_at self.new.links.descriptors q n ≡ leads_at self.old.links.descriptors q n }
    {
        self.links.connect(aste, process, number, mode, pages);
    }
}
