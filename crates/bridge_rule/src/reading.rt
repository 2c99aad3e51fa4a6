//! What a bridge does where it reads a message of the stream.
ghost use Rattle.std.specs.Prelude.{◌≡◌, ◌+◌, ◌<◌, length, map, replicate, true, false, IsOk, is_ok};
ghost use Rattle.one_history.specs.Streams.{OfBarrier, OfRecords};
ghost use Rattle.bridge_rule.specs.declared.limits.TheConstants.{LOGS, INDEX_END};
ghost use Rattle.bridge_rule.specs.declared.log.Step.TheVariants.{Skips};
ghost use Rattle.bridge_rule.specs.Openings.{barrier_of};
ghost use Rattle.bridge_rule.specs.Roles.{turn_of};
ghost use Rattle.bridge_rule.specs.Bridges.{indexed, all_taken, steps_of, are_quiet, is_quiet, performed, ArePlaced, IsTold, IsServing, with_logs, logs_read, steps_read, all_forgotten, opened, turn_at, barrier_read, DoesReadRecords};
ghost use Rattle.bridge_rule.specs.Events.{ReadsMessage, IsOfARun};

use crate::bridge::Bridge;
use crate::log::Step;
use crate::opening::{Name, Opening, is_same_name};
use crate::record::Placed;
use crate::role::{Role, Turn};

/// A record that counts isn't the one that the serving bridge knows at its index: this can't come from what was written.
#[derive(Drop)]
pub struct Diverged;

impl Bridge {
    /// Takes the records of a message by the name that counts.
    fn take_all(&mut self, records: &[Placed], steps: &mut [Step])
        requires placed { ArePlaced records.now }
        requires room { length steps.old ≡ length records.now }
        ensures logs { self.new ≡ with_logs self.old (all_taken self.old.logs (map indexed records.now)) }
        ensures steps { steps.new ≡ steps_of self.old.logs (map indexed records.now) }
    {
        for i in 0..records.len() {
            let one = &records[i];
            steps[i] = self.logs[usize::from(one.shard)].take(one.index, &one.text);
        }
    }

    /// Reads the stream's next message, of these records by this name, and writes the step at each record to `steps`.
    ///
    /// At an error the bridge isn't used any more: the host's journal has another record where one of its own counts.
    pub fn read_records(
        &mut self,
        name: &Name,
        records: &[Placed],
        steps: &mut [Step],
    ) -> Result<(), Diverged>
        requires told { IsTold self.old.role }
        requires placed { ArePlaced records.now }
        requires room { length steps.old ≡ length records.now }
        ensures event { IsOk result → ReadsMessage self.old self.new (OfRecords name.now.items (map indexed records.now))
            (λ journals shard. performed shard (map indexed records.now) steps.new (journals shard)) }
        ensures state { DoesReadRecords self.old self.new name.now.items (map indexed records.now) steps.new (is_ok result) }
        ensures converges { IsOfARun self.old (OfRecords name.now.items (map indexed records.now)) → IsOk result }
    {
        self.take_or_skip(name, records, steps);
        if self.has_diverged(steps) {
            return Err(Diverged);
        }
        Ok(())
    }

    /// Reads the stream's next message, this barrier. Returns what it makes of the bridge.
    pub fn read_barrier(&mut self, opening: &Opening) -> Turn
        requires told { IsTold self.old.role }
        requires number { opening.now.number < INDEX_END }
        ensures event { ReadsMessage self.old self.new (OfBarrier (barrier_of opening.now)) (λ journals. journals) }
        ensures state { self.new ≡ barrier_read self.old opening.now }
        ensures turn { result ≡ turn_at self.old opening.now }
    {
        if opening.number != self.last.number + 1 {
            return Turn::Nothing;
        }
        let turn = self.role.turn(opening);
        self.open(opening, turn);
        turn
    }

    /// This barrier counts, and makes this of the bridge.
    fn open(&mut self, opening: &Opening, turn: Turn)
        requires number { opening.now.number < INDEX_END }
        requires turn { turn ≡ turn_of self.old.role opening.now }
        ensures { self.new ≡ opened self.old opening.now }
    {
        self.last = opening.copy();
        self.held.clear();
        match turn {
            Turn::Nothing => {}
            Turn::Starts => {
                self.role = Role::Serving(opening.copy());
                self.forget_all();
            }
            Turn::Ends => self.role = Role::Untold,
            Turn::Yields => self.role = Role::Following,
        }
    }

    /// Each log knows just the records that count.
    fn forget_all(&mut self)
        ensures { self.new ≡ with_logs self.old (all_forgotten self.old.logs) }
    {
        for i in 0..self.logs.len() {
            self.logs[i].forget();
        }
    }

    /// Whether it serves, and one of these steps changes its journals.
    fn has_diverged(&self, steps: &[Step]) -> bool
        ensures serving { result ≡ true → IsServing self.now.role }
        ensures changed { result ≡ true → are_quiet steps.now ≡ false }
        ensures quiet { result ≡ false → IsServing self.now.role → are_quiet steps.now ≡ true }
    {
        self.is_serving() && !all_quiet(steps)
    }

    /// Takes the records of a message if its name is the one that counts.
    fn take_or_skip(&mut self, name: &Name, records: &[Placed], steps: &mut [Step])
        requires placed { ArePlaced records.now }
        requires room { length steps.old ≡ length records.now }
        ensures logs { self.new ≡ with_logs self.old (logs_read self.old name.now.items (map indexed records.now)) }
        ensures known { length self.old.logs ≡ LOGS }
        ensures steps { steps.new ≡ steps_read self.old name.now.items (map indexed records.now) }
    {
        if is_same_name(name, &self.last.name) {
            self.take_all(records, steps);
        } else {
            skip_all(steps);
        }
    }
}

/// None of these records counts.
fn skip_all(steps: &mut [Step])
    ensures { steps.new ≡ replicate (length steps.old) Skips }
{
    for step in steps.iter_mut() {
        *step = Step::Skips;
    }
}

/// Whether each step leaves its journal as it is.
fn all_quiet(steps: &[Step]) -> bool
    ensures { result ≡ are_quiet steps.now }
{
    steps.iter().all(|step| is_quiet(*step))
}

fn is_quiet(step: Step) -> bool
    ensures { result ≡ is_quiet step }
{
    match step {
        Step::Skips => true,
        Step::Stays => true,
        Step::Puts => false,
        Step::Replaces => false,
    }
}
