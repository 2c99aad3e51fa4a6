//! The window of a card: its decisions, each in the slot of its ATC.
ghost use Rattle.std.specs.Prelude.{◌≡◌, ◌-◌, ◌<◌, ◌≤◌, [], ◌++◌, None, Some, length, replicate, vec_capacity, IfOk, option_copied};
ghost use Rattle.reply_keep.specs.ReplySlots.{none_kept, in_slot, kept_on, with_kept, all_slots};

use crate::KeptEntry;
use arrayvec::ArrayVec;
use issuer_base::{NoMemory, Reply, Request, WINDOW};
use std::alloc::Global;
use std::marker::Model;

/// The stored decisions of a card, each in the slot of its ATC's residue modulo [`WINDOW`].
///
/// A contract sees all slots. Those after the open ones are empty: a slot is opened once a decision is stored in it or
/// after it.
#[derive(Drop)]
pub struct Kept {
    opened: Vec<Option<KeptEntry>>,
}

impl Model for Kept {
    ghost use Rattle.std.specs.Prelude.{◌≤◌, List, length, Option, vec_capacity};
    ghost use Rattle.issuer_base.specs.declared.limits.TheConstants.{WINDOW};
    ghost use Rattle.card_history.specs.declared.decision.Decision.{Decision};
    ghost use Rattle.reply_keep.specs.ReplySlots.{all_slots};

    ghost Value = { List (Option Decision) };

    ghost view = { λ kept. all_slots kept.opened.items };

    ghost invariant = { λ kept. (length kept.opened.items ≤ WINDOW) × (WINDOW ≤ vec_capacity kept.opened) };
}

impl Kept {
    /// No decisions, and room for one in each slot. No other call allocates.
    pub fn new(alloc: Global) -> Result<Kept, NoMemory>
        ensures { IfOk result (λ kept. kept ≡ none_kept) }
    {
        let opened = Vec::with_capacity(alloc, usize::from(WINDOW))?;
        Ok(Kept { opened })
    }

    /// The stored decision on this ATC.
    pub fn find(&self, counter: u16) -> Option<&KeptEntry>
        ensures { option_copied result ≡ kept_on counter self.now }
    {
        let found = in_slot(self.opened.as_slice(), usize::from(counter % WINDOW));
        found.filter(|decision| decision.request.parts().atc == counter)
    }

    /// Stores a decision in its ATC's slot, and overwrites what is there: this reply to this request, with its record
    /// at this index.
    #[inline(always)]
    pub fn keep(&mut self, request: &Request, reply: &Reply, place: u64)
        ensures { self.new ≡ with_kept (record { request = request.now; reply = reply.now; place = place }) self.old }
    {
        let slot = usize::from(request.parts().atc % WINDOW);
        if slot < self.opened.len() {
            fill(&mut self.opened[slot], request, reply, place);
            return;
        }
        open_before(&mut self.opened, slot);
        self.opened.push_reserved(Some(KeptEntry {
            request: *request,
            reply: reply.copy(),
            place,
        }));
    }

    /// Removes all decisions. The room for one in each slot stays.
    pub fn clear(&mut self)
        ensures { self.new ≡ none_kept }
    {
        self.opened.clear();
    }
}

/// The decision in a slot, which is empty if it isn't open.
fn in_slot(opened: &[Option<KeptEntry>], slot: usize) -> Option<&KeptEntry>
    ensures { option_copied result ≡ in_slot slot (all_slots opened.now) }
{
    if slot < opened.len() {
        opened[slot].as_ref()
    } else {
        None
    }
}

/// Opens the slots before this one, which isn't open. They are empty.
fn open_before(opened: &mut Vec<Option<KeptEntry>>, slot: usize)
    requires ahead { length opened.old.items ≤ slot }
    requires room { slot < vec_capacity opened.old }
    ensures grown { opened.new.items ≡ opened.old.items ++ replicate (slot - length opened.old.items) None }
    ensures room { vec_capacity opened.new ≡ vec_capacity opened.old }
{
    for _ in opened.len()..slot {
        opened.push_reserved(None);
    }
}

/// Stores a decision in a slot. The bytes of its reply are copied once, straight into the slot.
fn fill(slot: &mut Option<KeptEntry>, request: &Request, reply: &Reply, place: u64)
    ensures { slot.new ≡ Some (record { request = request.now; reply = reply.now; place = place }) }
{
    begin(slot, request, reply, place);
    if let Some(entry) = slot {
        let bytes = &mut entry.reply.bytes;
        bytes.try_extend_from_slice(reply.bytes.as_slice()).unwrap();
    }
}

/// Stores a decision in a slot, but for the bytes of its reply: there are none yet.
fn begin(slot: &mut Option<KeptEntry>, request: &Request, reply: &Reply, place: u64)
    ensures { slot.new ≡ Some (record {
      request = request.now;
      reply = record { arc = reply.now.arc; approve = reply.now.approve; bytes = record { items = [] } };
      place = place;
    }) }
{
    let Some(entry) = slot else {
        let bytes = ArrayVec::new();
        let reply = Reply {
            arc: reply.arc,
            approve: reply.approve,
            bytes,
        };
        *slot = Some(KeptEntry {
            request: *request,
            reply,
            place,
        });
        return;
    };
    entry.request = *request;
    entry.reply.arc = reply.arc;
    entry.reply.approve = reply.approve;
    entry.reply.bytes.clear();
    entry.place = place;
}
