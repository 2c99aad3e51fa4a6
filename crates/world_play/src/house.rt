//! The issuer's host at work, and the counts of the run so far.
ghost use Rattle.std.specs.Prelude.{◌≡◌, ◌+◌, ◌<◌, List, false};
ghost use Rattle.line_checks.specs.Reading.{reading};
ghost use Rattle.shard_book.specs.Answering.{is_store_fault};
ghost use Rattle.host_loading.specs.Books.{ShardBook};
ghost use Rattle.host_loading.specs.Hosts.{Stand};
ghost use Rattle.one_caller.specs.Room.{added_by};
ghost use Rattle.one_caller.specs.Turns.{Turn};
ghost use Rattle.world_play.specs.Play.{with_answer, with_tap};
ghost use Rattle.world_play.specs.Room.{RoomFor, UsesAtMost, CountsWithin, most_counted};

use crate::summary::Summary;
use issuer_base::{Answer, Request};
use one_caller::Solo;
use store_edge::RoomStore;

/// The host of the run's issuer, and the counts so far: what isn't known before the end is 0.
pub(crate) struct House {
    pub(crate) host: Solo<RoomStore>,
    pub(crate) tally: Summary,
}

impl House {
    /// The answer to a line, which is counted. Its store has room for it, so no store fails.
    pub(crate) fn answer(&mut self, line: &[u8]) -> Answer
        requires room { RoomFor (added_by self.old.host.issuer (reading self.old.host.issuer line.now)) self.old }
        requires counts { CountsWithin most_counted self.old.tally }
        ensures turn { (books : List ShardBook) → Stand self.old.host.issuer self.old.host.shards.items books
            → (after : List ShardBook) × Stand self.new.host.issuer self.new.host.shards.items after
            × Turn self.old.host.issuer books (reading self.old.host.issuer line.now) result after }
        ensures works { is_store_fault result ≡ false }
        ensures room { UsesAtMost (added_by self.old.host.issuer
            (reading self.old.host.issuer line.now)) self.old self.new }
        ensures tally { self.new.tally ≡ with_answer self.old.tally result }
        ensures issuer { self.new.host.issuer ≡ self.old.host.issuer }
    {
        let answer = self.host.authorise(line);
        count_answer(&mut self.tally, &answer);
        answer
    }
}

/// Counts an answer.
fn count_answer(tally: &mut Summary, answer: &Answer)
    requires { CountsWithin most_counted tally.old }
    ensures { tally.new ≡ with_answer tally.old answer.now }
{
    match answer {
        Answer::Fresh { reply, .. } => {
            tally.fresh += 1;
            if reply.approve {
                tally.approved += 1;
            }
        }
        Answer::Kept { .. } => tally.kept += 1,
        Answer::Queued { .. } => tally.queued += 1,
        Answer::Set { .. } => {}
        Answer::Refused(_) => tally.refused += 1,
    }
}

/// Counts a tap that gave a request.
pub(crate) fn count_tap(tally: &mut Summary, request: &Option<Request>)
    requires { CountsWithin most_counted tally.old }
    ensures { tally.new ≡ with_tap tally.old request.now }
{
    if request.is_some() {
        tally.taps += 1;
    }
}
