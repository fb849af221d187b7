// The frames, each at a place of its own.
ghost use Rattle.std.specs.Prelude.{◌≡◌, ◌==◌, ◌≤◌, ◌<◌, ◌+◌, ◌⊎◌, ℕ, [], Some, None, true, Option, length, is_some, slice_index_or, if◌then◌else◌, IsTrue, Err, IfOk, IfSome, IfNone, OnOk, OnErr, IfErr};
ghost use Rattle.std.specs.Option.{option_map};
ghost use Rattle.ctr_pool.specs.declared.frame.Frame.{Frame as Framed};
ghost use Rattle.ctr_pool.specs.Frames.{frame_of, has_page, since_in, page_of, since_then, after_change, after_save, dirty_count};
ghost use Rattle.ctr_pool.specs.Below.{PutsPage};
ghost use Rattle.ctr_disk.specs.types_Faults.{HasFault};
ghost use Rattle.ctr_disk.specs.declared.fault.StoreFault.TheVariants.{Fault};

use crate::places::Places;
use crate::{Backing, Body, Frame, Lsn};
use ctr_disk::StoreFault;
use ctr_rec::{OutOfMemory, Overlay, PageNo};
use std::alloc::Global;
use std::marker::Model;

// How many places of pages are remembered: a statement reads a page of the catalog, some pages of the bucket it is at and of its
// table's versions again and again.
const RECENT: usize = 64;

/// Frames by their pages. Their memory is taken at once, and a place isn't touched before a frame stands there. One is found in steps
/// that grow with the logarithm of their number, and one that was sought lately in one step.
#[derive(Drop)]
pub struct Frames {
    // one behind another, in no order
    items: Vec<Frame>,
    places: Places,
    // the places of pages that were sought lately or added, by their numbers: one is looked at before it is believed
    recent: [usize; RECENT],
}

impl Model for Frames {
    ghost use Rattle.std.specs.Prelude.{◌-◌, ◌+◌, ◌≡◌, length, vec_len, vec_capacity};
    ghost use Rattle.ctr_pool.specs.Kept.{FrameList, ArePlaced};

    ghost Value = { FrameList };

    ghost view = { λ a. record { frames = a.items.items; spare = vec_capacity a.items - vec_len a.items } };

    ghost invariant = { λ a. ArePlaced a.places.entries a.items.items × (length a.places.entries ≡ vec_len a.items) × (length a.places.entries + a.places.spare ≡ vec_capacity a.items) };
}

fn since_then(since: Option<Lsn>, lsn: Lsn) -> Option<Lsn>
    ensures { result ≡ since_then since lsn }
{
    if since.is_some() {
        return since;
    }
    Some(lsn)
}

impl Frames {
    /// No frame, with room for so many.
    pub fn new(alloc: Global, most: usize) -> Result<Frames, OutOfMemory>
        ensures none { IfOk result (λ a. a.frames ≡ []) }
        ensures room { IfOk result (λ a. a.spare ≡ most) }
    {
        let items = Vec::with_capacity(alloc, most)?;
        let places = Places::new(alloc, most)?;
        Ok(Frames {
            items,
            places,
            recent: [0; RECENT],
        })
    }

    /// How many frames there may be.
    pub fn most(&self) -> usize
        ensures { result ≡ length self.now.frames + self.now.spare }
    {
        self.items.capacity()
    }

    /// Whether there are as many as there may be.
    pub fn is_full(&self) -> bool
        ensures { result ≡ (self.now.spare == 0) }
    {
        self.items.len() == self.items.capacity()
    }

    // Where a page's frame stands. The place where one was sought lately is looked at first.
    fn place(&self, page: PageNo) -> Option<usize>
        ensures there { IfSome result (λ at. (at < length self.now.frames) × ((d : Framed) → (slice_index_or self.now.frames at d).page ≡ page)) }
        ensures none { IfNone result (frame_of page self.now.frames ≡ None) }
    {
        let at = self.recent[page as usize % RECENT];
        if at < self.items.len() && self.items[at].page == page {
            return Some(at);
        }
        self.places.of(page)
    }

    /// Whether a frame has the page. From now on that page is found in one step.
    pub fn has(&mut self, page: PageNo) -> bool
        ensures has { result ≡ has_page page self.old.frames }
        ensures same { self.new ≡ self.old }
    {
        match self.place(page) {
            Some(at) => {
                self.recent[page as usize % RECENT] = at;
                true
            }
            None => false,
        }
    }

    /// The LSN of the page's first change that isn't saved.
    pub fn since(&self, page: PageNo) -> Option<Lsn>
        ensures { result ≡ since_in page self.now.frames }
    {
        match self.place(page) {
            Some(at) => self.items[at].since,
            None => None,
        }
    }

    /// The bytes of a page that a frame has.
    pub fn body(&self, page: PageNo) -> &[u8]
        ensures shown { (f : Framed) → frame_of page self.now.frames ≡ Some f → result.now ≡ f.body }
        ensures whole { has_page page self.now.frames ≡ true → length result.now ≡ 4096 }
    {
        match self.place(page) {
            Some(at) => self.items[at].body.as_slice(),
            None => &[],
        }
    }

    /// The LSN of a page that a frame has.
    pub fn lsn(&self, page: PageNo) -> Lsn
        ensures { (f : Framed) → frame_of page self.now.frames ≡ Some f → result ≡ f.lsn }
    {
        match self.place(page) {
            Some(at) => self.items[at].lsn,
            None => 0,
        }
    }

    /// Adds a page that no frame has, with nothing to save.
    pub fn add(&mut self, page: PageNo, lsn: Lsn, body: Body)
        requires new { frame_of page self.old.frames ≡ None }
        requires room { 0 < self.old.spare }
        ensures frames { (q : ℕ) → frame_of q self.new.frames ≡ (if page == q then Some (record { page = page; lsn = lsn; since = None; body = body }) else frame_of q self.old.frames) }
        ensures count { dirty_count self.new.frames ≡ dirty_count self.old.frames }
        ensures len { length self.new.frames ≡ length self.old.frames + 1 }
        ensures room { self.new.spare + 1 ≡ self.old.spare }
    {
        let at = self.items.len();
        self.items.push_reserved(Frame {
            page,
            lsn,
            since: None,
            body,
        });
        self.places.add(page, at);
        self.recent[page as usize % RECENT] = at;
    }

    /// Takes a page's frame out, of which nothing is to be saved.
    pub fn remove(&mut self, page: PageNo)
        requires { since_in page self.old.frames ≡ None }
        ensures frames { (q : ℕ) → frame_of q self.new.frames ≡ (if page == q then None else frame_of q self.old.frames) }
        ensures count { dirty_count self.new.frames ≡ dirty_count self.old.frames }
        ensures len { length self.new.frames + (if has_page page self.old.frames then 1 else 0) ≡ length self.old.frames }
        ensures room { length self.new.frames + self.new.spare ≡ length self.old.frames + self.old.spare }
    {
        let Some(at) = self.place(page) else {
            return;
        };
        self.places.remove(page);
        let _ = self.items.swap_remove(at);
        if at == self.items.len() {
            return;
        }
        self.places.change(self.items[at].page, at);
    }

    /// Changes a page that a frame has.
    pub fn change(&mut self, page: PageNo, overlay: &Overlay, lsn: Lsn)
        requires inside { overlay.now.offset + length overlay.now.bytes ≤ 4096 }
        ensures frames { (q : ℕ) → frame_of q self.new.frames ≡ (if page == q then option_map (after_change overlay.now lsn) (frame_of q self.old.frames) else frame_of q self.old.frames) }
        ensures count { dirty_count self.new.frames + (if is_some (since_in page self.old.frames) then 1 else 0) ≡ dirty_count self.old.frames + (if has_page page self.old.frames then 1 else 0) }
        ensures len { length self.new.frames ≡ length self.old.frames }
        ensures room { self.new.spare ≡ self.old.spare }
    {
        let Some(at) = self.place(page) else {
            return;
        };
        let frame = &mut self.items[at];
        frame.body.lay(overlay);
        frame.lsn = lsn;
        frame.since = since_then(frame.since, lsn);
    }

    /// Notes that a page's changes are saved.
    pub fn settle(&mut self, page: PageNo)
        ensures frames { (q : ℕ) → frame_of q self.new.frames ≡ (if page == q then option_map after_save (frame_of q self.old.frames) else frame_of q self.old.frames) }
        ensures count { dirty_count self.new.frames + (if is_some (since_in page self.old.frames) then 1 else 0) ≡ dirty_count self.old.frames }
        ensures len { length self.new.frames ≡ length self.old.frames }
        ensures room { self.new.spare ≡ self.old.spare }
    {
        let Some(at) = self.place(page) else {
            return;
        };
        self.items[at].since = None;
    }

    /// Saves a page that a frame has.
    pub fn save<B: Backing>(&self, page: PageNo, backing: &mut B) -> Result<(), StoreFault>
        requires takes { IsTrue B.tells → (f : Framed) → frame_of page self.now.frames ≡ Some f → B.rests backing.old × (since : ℕ) × B.may_be_saved backing.old page since (page_of f) }
        requires there { has_page page self.now.frames ≡ true }
        ensures keeps { B.keeps backing.old backing.new }
        ensures saved { IsTrue B.tells → (f : Framed) → frame_of page self.now.frames ≡ Some f → OnOk result (PutsPage B.held B.may_be_saved page (page_of f) backing.old backing.new) }
        ensures goes { IsTrue B.tells → B.leaves_between backing.old backing.new }
        ensures moves { IsTrue B.tells → OnOk result (B.may_change backing.old backing.new × B.rests backing.new) }
        ensures fails { (IsTrue B.tells → IfErr result (B.fails backing.old backing.new)) × OnErr result (result ≡ Err Fault) }
        ensures faults { HasFault Fault (B.faults_of backing.old) (B.faults_of backing.new) result }
    {
        match self.place(page) {
            Some(at) => {
                let frame = &self.items[at];
                backing.save(page, frame.lsn, frame.body.as_slice())
            }
            None => unreachable!(),
        }
    }

    fn clean_from(&self, from: usize) -> Option<PageNo>
        ensures clean { IfSome result (λ p. (has_page p self.now.frames ≡ true) × (since_in p self.now.frames ≡ None)) }
        ensures none { IfNone result (from ≡ 0 → dirty_count self.now.frames ≡ length self.now.frames) }
    {
        for rank in from..self.places.len() {
            let (page, at) = self.places.entry(rank);
            if self.items[at].since.is_none() {
                return Some(page);
            }
        }
        None
    }

    /// A page with nothing to save, the next behind a page if there is one.
    pub fn clean_behind(&self, page: PageNo) -> Option<PageNo>
        ensures clean { IfSome result (λ p. (has_page p self.now.frames ≡ true) × (since_in p self.now.frames ≡ None)) }
        ensures none { IfNone result (dirty_count self.now.frames ≡ length self.now.frames) }
    {
        if let Some(clean) = self.clean_from(self.places.behind(page)) {
            return Some(clean);
        }
        self.clean_from(0)
    }
}
