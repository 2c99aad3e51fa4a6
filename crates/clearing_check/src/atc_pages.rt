//! The numbers of records by card and ATC.
ghost use Rattle.std.specs.Prelude.{◌≡◌, ◌≢◌, ℕ, ◌<◌, ◌&&◌, ◌==◌, ◌+◌, ◌*◌, ◌%◌, if◌then◌else◌, length, slice_index, IfOk, OnOk, OnErr};
ghost use Rattle.clearing_check.specs.AtcPages.{slot_of, entry_of};

use issuer_base::NoMemory;
use std::alloc::Global;
use std::marker::Model;

/// How many ATCs in a row share a page.
pub(crate) const PAGE: usize = 256;

/// How many entries a directory has at most: 256 for each card.
const MAX_ENTRIES: usize = 1 << 40;

/// A number for each ATC of each card, which is 0 until it is set.
///
/// The numbers are in pages of 256 ATCs in a row, which are allocated as they are needed.
///
/// A contract sees the directory of the pages, and their slots.
#[derive(Drop)]
pub(crate) struct AtcPages {
    /// The number of the page for each card and 256 ATCs in a row; 0, the number of a blank page, where there is none.
    directory: Vec<u32>,

    /// The slots of all pages.
    slots: Vec<u32>,
}

impl Model for AtcPages {
    ghost use Rattle.clearing_check.specs.AtcPages.{Pages, ArePages};

    ghost Value = { Pages };

    ghost view = { λ pages. record { directory = pages.directory.items; slots = pages.slots.items } };

    ghost invariant = { λ pages. ArePages (record { directory = pages.directory.items; slots = pages.slots.items }) };
}

impl AtcPages {
    /// No number is set. It reserves a directory for this many cards.
    pub(crate) fn new(alloc: Global, cards: u32) -> Result<AtcPages, NoMemory>
        ensures { IfOk result (λ pages. (card atc : ℕ) → slot_of pages card atc ≡ 0) }
    {
        let directory = Vec::with_capacity(alloc, PAGE * cards as usize)?;
        let mut slots = Vec::new(alloc);
        slots.resize(PAGE, 0)?;
        Ok(AtcPages { directory, slots })
    }

    /// The number of this ATC of the card.
    pub(crate) fn get(&self, card: u32, atc: u16) -> u32
        ensures { result ≡ slot_of self.now card atc }
    {
        let page = self.page_at(entry_of(card, atc));
        self.slots[slot_in(page, atc)]
    }

    /// Sets the number of this ATC of the card, unless it is set already.
    pub(crate) fn set_first(&mut self, card: u32, atc: u16, number: u32) -> Result<(), NoMemory>
        ensures set { OnOk result ((other_card other : ℕ) → other < 65_536 → slot_of self.new other_card other
            ≡ if slot_of self.old other_card other == 0 && (card == other_card && atc == other) then number
            else slot_of self.old other_card other) }
        ensures refused { OnErr result ((other_card other : ℕ)
            → slot_of self.new other_card other ≡ slot_of self.old other_card other) }
    {
        if self.get(card, atc) != 0 {
            return Ok(());
        }
        self.set(card, atc, number)
    }

    /// Sets the number of this ATC of the card.
    fn set(&mut self, card: u32, atc: u16, number: u32) -> Result<(), NoMemory>
        ensures set { OnOk result ((other_card other : ℕ) → other < 65_536 → slot_of self.new other_card other
            ≡ if card == other_card && atc == other then number else slot_of self.old other_card other) }
        ensures refused { OnErr result ((other_card other : ℕ)
            → slot_of self.new other_card other ≡ slot_of self.old other_card other) }
    {
        let page = self.open_page(entry_of(card, atc))?;
        self.slots[slot_in(page, atc)] = number;
        Ok(())
    }

    /// The number of the page at this index of the directory, which is opened if there is none yet.
    fn open_page(&mut self, entry: usize) -> Result<u32, NoMemory>
        requires { entry < MAX_ENTRIES }
        ensures page { IfOk result (λ page. (slice_index self.new.directory entry ≡ page) × (page ≢ 0)) }
        ensures same { (card atc : ℕ) → slot_of self.new card atc ≡ slot_of self.old card atc }
    {
        match self.page_at(entry) {
            0 => self.add_page(entry),
            page => Ok(page),
        }
    }

    /// Adds a page for this index of the directory.
    fn add_page(&mut self, entry: usize) -> Result<u32, NoMemory>
        requires within { entry < MAX_ENTRIES }
        requires none { slice_index self.old.directory entry ≡ 0 }
        ensures page { IfOk result (λ page. (slice_index self.new.directory entry ≡ page) × (page ≢ 0)) }
        ensures same { (card atc : ℕ) → slot_of self.new card atc ≡ slot_of self.old card atc }
    {
        let len = self.slots.len();
        let page = u32::try_from(len / PAGE).map_err(|_| NoMemory)?;
        extend_to(&mut self.directory, entry)?;
        self.slots.resize(len + PAGE, 0)?;
        self.directory[entry] = page;
        Ok(page)
    }

    /// The number of the page at this index of the directory, or 0 if there is none.
    fn page_at(&self, entry: usize) -> u32
        ensures { result ≡ slice_index self.now.directory entry }
    {
        if entry < self.directory.len() {
            self.directory[entry]
        } else {
            0
        }
    }
}

/// The index in the directory of the page of this ATC of the card.
fn entry_of(card: u32, atc: u16) -> usize
    ensures entry { result ≡ entry_of card atc }
    ensures below { result < MAX_ENTRIES }
{
    PAGE * card as usize + usize::from(atc) / PAGE
}

/// The index of the slot of this ATC in the page with this number.
fn slot_in(page: u32, atc: u16) -> usize
    ensures { result ≡ PAGE * page + atc % PAGE }
{
    PAGE * page as usize + usize::from(atc) % PAGE
}

/// Extends the directory by 0 up to this index.
fn extend_to(directory: &mut Vec<u32>, entry: usize) -> Result<(), NoMemory>
    requires { entry < MAX_ENTRIES }
    ensures same { (other : ℕ) → slice_index directory.new.items other ≡ slice_index directory.old.items other }
    ensures within { OnOk result (entry < length directory.new.items) }
{
    if entry >= directory.len() {
        directory.resize(entry + 1, 0)?;
    }
    Ok(())
}
