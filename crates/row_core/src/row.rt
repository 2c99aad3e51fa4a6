//! The row of a card: the plan for a request, and the decisions of the card's window.
ghost use Rattle.std.specs.Prelude.{◌≡◌, ◌↔◌, ℕ, ◌+◌, ◌≤◌, ◌++◌, List, [], length, Some, MatchOption, IfOk, IsOk, OnErr, IsTrue};
ghost use Rattle.issuer_base.specs.declared.entry.Entry.{Entry};
ghost use Rattle.issuer_base.specs.ScriptCommand.{is_command};
ghost use Rattle.card_history.specs.CardViews.{card_shown};
ghost use Rattle.card_history.specs.Records.{card_of, decided, IsBelowBy};
ghost use Rattle.card_history.specs.Scripts.{Scripts, with_newest, in_flight, first_of, is_newest};
ghost use Rattle.card_history.specs.Turns.{IsUnused};
ghost use Rattle.script_queue.specs.CommandQueue.{TakesOneMore};
ghost use Rattle.key_derive.specs.SessionKey.{session_of};
ghost use Rattle.issuer_setup.specs.CardList.{name_of};
ghost use Rattle.issuer_setup.specs.declared.card.CardInfo.{CardInfo};
ghost use Rattle.row_core.specs.CardRow.{KeepsScripts, StandsFor};
ghost use Rattle.row_core.specs.Known.{IsKnown};
ghost use Rattle.row_core.specs.Launching.{IsLaunch, IsLaunchFor, TakesOff};
ghost use Rattle.row_core.specs.Replying.{script_bytes, reply_bytes, reply_after};
ghost use Rattle.row_core.specs.Plan.{IsPlan, IsStep, IsStepped, IsNext, with_record, with_command_for, with_status_for};

use crate::reply::{write_answer, write_scripts};
use crate::scripts::{CardScripts, Launch};
use arpc_methods::MadeAhead;
use arrayvec::ArrayVec;
use card_history::CardView;
use cvr_settle::Flight;
use decision_table::{Table, decide};
use issuer_base::{
    Command, MAX_REPLY_BYTES, MAX_STATUS, MAX_TEMPLATE_BYTES, Method, NoMemory, QueueFull, Reply,
    Request, WINDOW,
};
use key_derive::{LazyKeys, SessionKey};
use reply_keep::Kept;
use script_queue::Queue;
use std::alloc::Global;
use std::marker::Model;

/// The plan for a request of the row's card.
#[derive(Drop)]
pub enum Outcome<'a> {
    /// Its ATC is in the window and unused: the reply that the table decides, and the launch of the reply's batch if
    /// the ATC is the newest.
    Fresh(Reply, Option<Launch>),

    /// The request was decided before: its reply, borrowed from the row, and the index of its record.
    Kept(&'a Reply, u64),

    /// Its ATC is below the window of this greatest ATC.
    Below(u16),

    /// Another request with its ATC was decided, and has its record at this index.
    Taken(u64),
}

/// What the window's decisions say of a request whose ATC is used or below the window.
#[derive(Drop)]
pub enum Known<'a> {
    /// The request was decided before: its reply, borrowed from the row, and the index of its record.
    Kept(&'a Reply, u64),

    /// Its ATC is below the window of this greatest ATC.
    Below(u16),

    /// Another request with its ATC was decided, and has its record at this index.
    Taken(u64),
}

/// What the host holds of one card, in memory of fixed size.
///
/// A contract sees its parts; `StandsFor` relates them to a shard's history.
#[derive(Drop)]
pub struct Row {
    pub(crate) method: Method,

    /// The greatest ATC among the decisions.
    hi: Option<u16>,

    /// The card's status, 0 to 9.
    status: u8,

    /// The card's decisions within its window.
    kept: Kept,

    /// The card's issuer script commands.
    scripts: CardScripts,
}

impl Model for Row {
    ghost use Rattle.row_core.specs.CardRow.{CardRow};

    ghost Value = { CardRow };

    ghost view = { λ row. record {
      method = row.method;
      hi = row.hi;
      status = row.status;
      slots = row.kept;
      scripts = row.scripts;
    } };
}

impl Row {
    /// The row of a card of this method that has no records. No other call allocates.
    pub fn new(alloc: Global, method: Method) -> Result<Row, NoMemory>
        ensures { IfOk result (λ row. (card : CardInfo) → method ≡ card.method → StandsFor card row []) }
    {
        let kept = Kept::new(alloc)?;
        let scripts = CardScripts::new(alloc)?;
        Ok(Row {
            method,
            hi: None,
            status: 0,
            kept,
            scripts,
        })
    }

    /// The greatest decided ATC, or none.
    pub fn hi(&self) -> Option<u16>
        ensures { result ≡ self.now.hi }
    {
        self.hi
    }

    /// The card's status, 0 to 9: 0 if none was set.
    pub fn status(&self) -> u8
        ensures { result ≡ self.now.status }
    {
        self.status
    }

    /// The issuer script commands that are queued for the card.
    pub fn queue(&self) -> &Queue
        ensures { result.now ≡ self.now.scripts.commands }
    {
        self.scripts.queue()
    }

    /// How many issuer script commands are done: the card ran them, the first ones that were queued.
    pub fn done(&self) -> u32
        ensures { result ≡ self.now.scripts.done }
    {
        self.scripts.done()
    }

    /// The batch in flight, of the last reply on a newest ATC; `None` before the first, and if the scripts are halted.
    pub fn flight(&self) -> Option<Flight>
        ensures { result ≡ self.now.scripts.flight }
    {
        self.scripts.flight()
    }

    /// Whether the card's scripts are halted: the card reported what can't be, and gets no issuer script command any
    /// more.
    pub fn halted(&self) -> bool
        ensures { result ≡ self.now.scripts.halted }
    {
        self.scripts.halted()
    }

    /// The card's view: what the histories that the row stands for report of it.
    #[tactic(auto, using(crate::proofs::Shown::row_view))]
    pub fn view(&self) -> CardView
        ensures { (card : CardInfo) (history : List Entry) → StandsFor card self.now history
            → result ≡ card_shown (name_of card) history }
    {
        CardView {
            hi: self.hi,
            status: self.status,
            queued: self.scripts.queue().queued(),
            done: self.scripts.done(),
            flight: self.scripts.flight(),
            halted: self.scripts.halted(),
        }
    }

    /// The plan for a request of the row's card: one turn's answer to it.
    ///
    /// `session` is the session key for the cryptograms of the request's transaction. `keys` are the card's master keys
    /// from the key set of the request, in the request's suite; the one for secure messaging is used only if the reply
    /// carries a command.
    #[inline(always)]
    pub fn plan(
        &self,
        session: &SessionKey,
        keys: &LazyKeys,
        table: &Table,
        request: &Request,
    ) -> Outcome<'_>
        requires { session.now ≡ session_of keys.now request.now.atc }
        ensures plan { IsPlan self.now keys.now table.now request.now result }

        // Whatever history the row stands for, a planned reply is whole, and its launch is that of this row.
        ensures step { IsStepped self.now request.now result }
    {
        match self.known(request) {
            Some(Known::Kept(reply, place)) => return Outcome::Kept(reply, place),
            Some(Known::Below(greatest)) => return Outcome::Below(greatest),
            Some(Known::Taken(place)) => return Outcome::Taken(place),
            None => {}
        }
        let mut reply = Reply {
            arc: [0; 2],
            approve: false,
            bytes: ArrayVec::new(),
        };
        let launch = self.decide(session, keys, table, request, &mut reply);
        Outcome::Fresh(reply, launch)
    }

    /// What is known of a request of the row's card whose ATC is used or below the window. `None` if its ATC is in the
    /// window and unused: then it may be decided.
    #[inline(always)]
    pub fn known(&self, request: &Request) -> Option<Known<'_>>
        ensures { (card : CardInfo) (history : List Entry) → StandsFor card self.now history
            → MatchOption result (IsUnused (decided (name_of card) history) request.now)
            (IsKnown (decided (name_of card) history) request.now) }
    {
        let counter = request.parts().atc;
        if let Some(greatest) = greatest_above(self.hi, counter, WINDOW) {
            return Some(Known::Below(greatest));
        }
        let entry = self.kept.find(counter)?;
        if !entry.request.is_same(request) {
            return Some(Known::Taken(entry.place));
        }
        Some(Known::Kept(&entry.reply, entry.place))
    }

    /// Decides a request of the row's card whose ATC is in the window and unused: makes of a reply without bytes the
    /// one that the table decides. Returns the launch of its batch, if the ATC is the newest.
    ///
    /// `session` and `keys` are those that [`Row::plan`] takes.
    #[inline(always)]
    pub fn decide(
        &self,
        session: &SessionKey,
        keys: &LazyKeys,
        table: &Table,
        request: &Request,
        reply: &mut Reply,
    ) -> Option<Launch>
        requires session { session.now ≡ session_of keys.now request.now.atc }
        requires empty { reply.old.bytes.items ≡ [] }
        ensures reply { (card : CardInfo) (history : List Entry) → StandsFor card self.now history
            → card_of request.now ≡ name_of card
            → reply.new ≡ reply_after card.method keys.now table.now history request.now }
        ensures step { IsStep self.now request.now reply.new result }
    {
        let row = decide(table, self.status, request);
        let launch = self.launch(request);
        reply.arc = row.arc;
        reply.approve = row.approve;
        self.write_reply(
            &mut reply.bytes,
            session,
            keys,
            request,
            launch,
            row.arc,
            row.csu,
            None,
        );
        launch
    }

    /// Applies the decision that a plan on this row, unchanged since, gave for this request: its reply, with the launch
    /// of its batch. Its record is at this index.
    #[inline(always)]
    pub fn apply(&mut self, request: &Request, reply: &Reply, launch: Option<Launch>, place: u64)
        requires { IsLaunchFor self.old request.now launch }
        ensures { (card : CardInfo) (history : List Entry) → StandsFor card self.old history
            → IsNext card history (record { request = request.now; reply = reply.now; place = place })
            → StandsFor card self.new (with_record history
            (record { request = request.now; reply = reply.now; place = place })) }
    {
        self.take_off(request, launch);
        self.kept.keep(request, reply, place);
    }

    /// Queues a command for the card, and returns its number in the card's queue, from 0. If the queue accepts no more,
    /// it is refused and nothing changes.
    pub fn push(&mut self, command: Command) -> Result<u32, QueueFull>
        requires { IsTrue (is_command command) }
        ensures taken { IsOk result ↔ TakesOneMore self.old.scripts.commands }
        ensures number { IfOk result (λ number. number ≡ self.old.scripts.commands.queued) }
        ensures queued { IfOk result (λ number. (card : CardInfo) (history : List Entry)
            → StandsFor card self.old history
            → StandsFor card self.new (with_command_for history card command)) }
        ensures unchanged { OnErr result (self.new ≡ self.old) }
    {
        self.scripts.push(command)
    }

    /// Gives the card a status, 0 to 9.
    pub fn set_status(&mut self, status: u8)
        requires { status ≤ MAX_STATUS }
        ensures { (card : CardInfo) (history : List Entry) → StandsFor card self.old history
            → StandsFor card self.new (with_status_for history card status) }
    {
        self.status = status;
    }

    /// Removes what the row holds of all records. It doesn't allocate.
    pub fn clear(&mut self)
        ensures { (card : CardInfo) → self.old.method ≡ card.method → StandsFor card self.new [] }
    {
        self.hi = None;
        self.status = 0;
        self.kept.clear();
        self.scripts.clear();
    }

    /// The launch of the reply to a request that is decided, if its ATC is the newest.
    #[inline(always)]
    pub(crate) fn launch(&self, request: &Request) -> Option<Launch>
        ensures { IsLaunchFor self.now request.now result }
    {
        if is_newest(request.parts().atc, self.hi) {
            Some(self.scripts.launch(request))
        } else {
            None
        }
    }

    /// Settles the old flight and begins that of the reply to a decided request, if its ATC is the newest.
    fn take_off(&mut self, request: &Request, launch: Option<Launch>)
        requires { IsLaunchFor self.old request.now launch }
        ensures { TakesOff self.old self.new request.now }
    {
        let Some(launch) = launch else {
            return;
        };
        let counter = request.parts().atc;
        self.scripts.apply(counter, launch);
        self.hi = Some(counter);
    }

    /// Writes what goes to the card with this response code and, by method 2, this card status update, into empty
    /// bytes: the issuer's answer, whose ARPC may have been made ahead, and the batch of the launch.
    pub(crate) fn write_reply(
        &self,
        bytes: &mut ArrayVec<u8, MAX_REPLY_BYTES>,
        session: &SessionKey,
        keys: &LazyKeys,
        request: &Request,
        launch: Option<Launch>,
        arc: [u8; 2],
        csu: [u8; 4],
        made: Option<&MadeAhead>,
    )
        requires empty { bytes.old.items ≡ [] }
        requires session { session.now ≡ session_of keys.now request.now.atc }
        requires launch { IsLaunchFor self.now request.now launch }
        ensures bytes { (scripts : Scripts) → KeepsScripts self.now scripts
            → bytes.new.items ≡ reply_bytes self.now.method keys.now scripts request.now arc csu }
        ensures some { 1 ≤ length bytes.new.items }
        ensures code { length arc ≡ 2 }
    {
        write_answer(bytes, self.method, session, request, arc, csu, made);
        if let Some(launch) = launch {
            self.write_batch(bytes, keys, request, launch);
        }
    }

    /// Appends the batch that goes with the reply to a request on the newest ATC to the bytes of the reply.
    fn write_batch(
        &self,
        bytes: &mut ArrayVec<u8, MAX_REPLY_BYTES>,
        keys: &LazyKeys,
        request: &Request,
        launch: Launch,
    )
        requires room { length bytes.old.items + MAX_TEMPLATE_BYTES ≤ MAX_REPLY_BYTES }
        requires launch { IsLaunch self.now.scripts request.now launch }
        ensures batch { (scripts : Scripts) → KeepsScripts self.now scripts
            → let batch = in_flight (with_newest request.now scripts) in
            bytes.new.items ≡ bytes.old.items ++ script_bytes keys.now.suite keys.now.smi.0 request.now.ac
            (first_of request.now scripts) batch }
        ensures longer { length bytes.old.items ≤ length bytes.new.items }
    {
        let first = self.scripts.first_number(launch);
        let (front, back) = self.scripts.batch(launch);
        write_scripts(bytes, keys, &request.parts().ac, first, front, back);
    }

    /// Whether an ATC is below the window of so many ATCs.
    pub(crate) fn is_below(&self, counter: u16, window: u16) -> bool
        ensures { IsTrue result ↔ IsBelowBy window self.now.hi counter }
    {
        greatest_above(self.hi, counter, window).is_some()
    }
}

/// The greatest ATC, if this ATC is below its window of so many ATCs.
fn greatest_above(greatest: Option<u16>, counter: u16, window: u16) -> Option<u16>
    ensures { MatchOption result (IsBelowBy window greatest counter → ⊥)
        (λ atc. (greatest ≡ Some atc) × IsBelowBy window greatest counter) }
{
    greatest.filter(|greatest| u32::from(counter) + u32::from(window) <= u32::from(*greatest))
}

/// Whether an ATC is above the greatest one, or the first.
fn is_newest(counter: u16, greatest: Option<u16>) -> bool
    ensures { result ≡ is_newest counter greatest }
{
    greatest.is_none_or(|greatest| greatest < counter)
}
