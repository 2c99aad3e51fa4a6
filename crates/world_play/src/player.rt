//! A card, and its requests and reply on their way.
ghost use Rattle.std.specs.Prelude.{◌≡◌, ◌%◌, length, sum_by, take, IfOk, None};
ghost use Rattle.card_history.specs.OneReply.{reply_in};
ghost use Rattle.one_caller.specs.Room.{added_at, added_by};
ghost use Rattle.line_checks.specs.Reading.{reading};
ghost use Rattle.world_play.specs.declared.moves.Move.TheVariants.{Tap};
ghost use Rattle.world_play.specs.Handing.{spoil_first};
ghost use Rattle.world_play.specs.Play.{Makes, MakesAll, IsAnswered, IsAsked, handed, spoiled};
ghost use Rattle.world_play.specs.Reaching.{Reaches};
ghost use Rattle.world_play.specs.Room.{RoomFor, UsesAtMost, CountsWithin, CountsAtMost, CanCount, StaysOf, IsTurn};
ghost use Rattle.world_play.specs.Room.{IsMade, asked_bytes, moved_bytes, most_counted};

use crate::handing::{hand, hand_first, hand_spoiled};
use crate::house::{House, count_tap};
use crate::moves::Move;
use crate::queue_line::queue_line;
use crate::setting::{Step, terminal_of};
use card_model::Card;
use issuer_base::{Answer, NoMemory, Reply, Request};
use terminal_kernel::request_line;

/// A card, its request in hand, the last reply to one of its lines, and its request that is held back.
#[derive(Drop)]
pub(crate) struct Player {
    pub(crate) card: Card,
    pub(crate) request: Option<Request>,
    pub(crate) reply: Option<Reply>,
    pub(crate) held: Option<Request>,
}

impl Player {
    /// Makes the moves of a step, in order.
    pub(crate) fn play(
        &mut self,
        house: &mut House,
        step: &Step,
        moves: &[Move],
    ) -> Result<(), NoMemory>
        requires turn { IsTurn step.now house.old self.old }
        requires room { RoomFor (added_at (step.now.card % 4) (sum_by moved_bytes moves.now)) house.old }
        requires counts { CanCount (length moves.now) house.old.tally }
        ensures reached { IfOk result (λ _. Reaches
            (MakesAll house.old.host.issuer step.now moves.now) house.old self.old house.new self.new) }
        ensures own { IfOk result (λ _. StaysOf self.old self.new) }
        ensures used { IfOk result (λ _. UsesAtMost (added_at (step.now.card % 4)
            (sum_by moved_bytes moves.now)) house.old house.new
            × CountsAtMost (length moves.now) house.old house.new) }
    {
        for next in moves {
            self.make(house, step, *next)?;
        }
        Ok(())
    }

    /// Makes one move of a step.
    fn make(&mut self, house: &mut House, step: &Step, next: Move) -> Result<(), NoMemory>
        requires turn { IsTurn step.now house.old self.old }
        requires room { RoomFor (added_at (step.now.card % 4) (moved_bytes next)) house.old }
        requires counts { CountsWithin most_counted house.old.tally }
        ensures { IfOk result (λ _. IsMade step.now next house.old self.old house.new self.new) }
    {
        match next {
            Move::Queue(number) => self.say(house, queue_line(step, number).as_slice()),
            Move::Tap => self.tap(house, step),
            Move::Ask => self.ask(house),
            Move::AskSpoiled => self.ask_spoiled(house),
            Move::Hold => self.hold(),
            Move::TakeHeld => self.take_held(),
            Move::Hand => return self.hand(house),
            Move::HandFirst => return self.hand_first(house),
            Move::HandSpoiled => return self.hand_spoiled(house),
        }
        Ok(())
    }

    /// The host answers a line of this card; a reply in the answer is the last one.
    fn say(&mut self, house: &mut House, line: &[u8])
        requires room { RoomFor (added_by house.old.host.issuer (reading house.old.host.issuer line.now)) house.old }
        requires counts { CountsWithin most_counted house.old.tally }
        ensures reached { Reaches (IsAnswered house.old.host.issuer line.now) house.old self.old house.new self.new }
        ensures room { UsesAtMost (added_by house.old.host.issuer
            (reading house.old.host.issuer line.now)) house.old house.new }
        ensures counts { CountsAtMost 1 house.old house.new }
        ensures own { StaysOf self.old self.new }
    {
        self.reply = reply_in(house.answer(line));
    }

    /// A tap at the step's terminal.
    #[tactic(auto, using(crate::proofs::Moving::tapped_once))]
    fn tap(&mut self, house: &mut House, step: &Step)
        requires { CountsWithin most_counted house.old.tally }
        ensures reached { Reaches (Makes house.old.host.issuer step.now Tap) house.old self.old house.new self.new }
        ensures host { house.new.host ≡ house.old.host }
        ensures counts { CountsAtMost 1 house.old house.new }
        ensures own { StaysOf self.old self.new }
    {
        let request = self.card.tap(&terminal_of(step));
        count_tap(&mut house.tally, &request);
        self.request = request;
        self.reply = None;
    }

    /// The line of the request in hand is answered.
    fn ask(&mut self, house: &mut House)
        requires room { RoomFor (asked_bytes house.old.host.issuer (λ request. request) self.old.request) house.old }
        requires counts { CountsWithin most_counted house.old.tally }
        ensures reached { Reaches (λ before. IsAsked house.old.host.issuer
            (λ request. request) before.player.request before) house.old self.old house.new self.new }
        ensures room { UsesAtMost (asked_bytes house.old.host.issuer
            (λ request. request) self.old.request) house.old house.new }
        ensures counts { CountsAtMost 1 house.old house.new }
        ensures own { StaysOf self.old self.new }
    {
        let Some(request) = &self.request else {
            return;
        };
        let line = request_line(request);
        self.say(house, line.as_slice());
    }

    /// The line of the request in hand is answered, with the last bit of its cryptogram changed.
    fn ask_spoiled(&mut self, house: &mut House)
        requires room { RoomFor (asked_bytes house.old.host.issuer spoiled self.old.request) house.old }
        requires counts { CountsWithin most_counted house.old.tally }
        ensures reached { Reaches (λ before. IsAsked house.old.host.issuer spoiled before.player.request before)
            house.old self.old house.new self.new }
        ensures room { UsesAtMost (asked_bytes house.old.host.issuer spoiled self.old.request) house.old house.new }
        ensures counts { CountsAtMost 1 house.old house.new }
        ensures own { StaysOf self.old self.new }
    {
        let Some(request) = &self.request else {
            return;
        };
        let line = request_line(&spoiled(request));
        self.say(house, line.as_slice());
    }

    /// The request in hand is held back.
    fn hold(&mut self)
        ensures { self.new ≡ record self.old { held = self.old.request; request = None } }
    {
        self.held = self.request.take();
    }

    /// The request that is held back is in hand; nothing is, if none is held.
    fn take_held(&mut self)
        ensures { self.new ≡ record self.old { request = self.old.held; reply = None; held = None } }
    {
        self.reply = None;
        self.request = self.held.take();
    }

    /// The last reply arrives.
    fn hand(&mut self, house: &mut House) -> Result<(), NoMemory>
        requires { CountsWithin most_counted house.old.tally }
        ensures reached { IfOk result (λ _. Reaches (λ before after. after
            ≡ handed (λ answer. answer) (λ commands. commands) before.player.reply before)
            house.old self.old house.new self.new) }
        ensures host { house.new.host ≡ house.old.host }
        ensures counts { IfOk result (λ _. CountsAtMost 1 house.old house.new) }
        ensures own { IfOk result (λ _. StaysOf self.old self.new) }
    {
        let Some(reply) = &self.reply else {
            return Ok(());
        };
        hand(&mut self.card, &mut house.tally, reply)
    }

    /// The last reply arrives, with its first command alone.
    fn hand_first(&mut self, house: &mut House) -> Result<(), NoMemory>
        requires { CountsWithin most_counted house.old.tally }
        ensures reached { IfOk result (λ _. Reaches (λ before after. after
            ≡ handed (λ answer. answer) (take 1) before.player.reply before) house.old self.old house.new self.new) }
        ensures host { house.new.host ≡ house.old.host }
        ensures counts { IfOk result (λ _. CountsAtMost 1 house.old house.new) }
        ensures own { IfOk result (λ _. StaysOf self.old self.new) }
    {
        let Some(reply) = &self.reply else {
            return Ok(());
        };
        hand_first(&mut self.card, &mut house.tally, reply)
    }

    /// The last reply arrives, with a spoiled answer.
    fn hand_spoiled(&mut self, house: &mut House) -> Result<(), NoMemory>
        requires { CountsWithin most_counted house.old.tally }
        ensures reached { IfOk result (λ _. Reaches (λ before after. after
            ≡ handed spoil_first (λ commands. commands) before.player.reply before)
            house.old self.old house.new self.new) }
        ensures host { house.new.host ≡ house.old.host }
        ensures counts { IfOk result (λ _. CountsAtMost 1 house.old house.new) }
        ensures own { IfOk result (λ _. StaysOf self.old self.new) }
    {
        let Some(reply) = &self.reply else {
            return Ok(());
        };
        hand_spoiled(&mut self.card, &mut house.tally, reply)
    }
}

/// The reply that an answer gives, or none.
fn reply_in(answer: Answer) -> Option<Reply>
    ensures { result ≡ reply_in answer }
{
    match answer {
        Answer::Fresh { reply, .. } => Some(reply),
        Answer::Kept { reply, .. } => Some(reply),
        Answer::Queued { .. } => None,
        Answer::Set { .. } => None,
        Answer::Refused(_) => None,
    }
}

/// A request with the last bit of its cryptogram changed.
#[tactic(auto, unfolding(issuer_base::specs::ChipData::request_from, issuer_base::specs::ChipData::is_request))]
fn spoiled(request: &Request) -> Request
    ensures { result ≡ spoiled request.now }
{
    let mut parts = *request.parts();
    parts.ac[7] ^= 0x01;
    Request::new(parts).unwrap()
}
