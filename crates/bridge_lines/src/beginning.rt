//! What a bridge begins with, and the parser of its lines.
ghost use Rattle.std.specs.Prelude.{◌≡◌, ◌<◌, ◌≤◌, [], All, option_map, replicate, IfSome};
ghost use Rattle.bridge_rule.specs.declared.limits.TheConstants.{LOGS, INDEX_END};
ghost use Rattle.one_history.specs.Streams.{no_barrier};
ghost use Rattle.bridge_rule.specs.Openings.{barrier_of};
ghost use Rattle.bridge_lines.specs.Givens.{given_in, given_by, given_of, position_in, count_in, IsGivenWithin};

use crate::action::Counted;
use crate::message::barrier_in;
use crate::words::{cut, is_same, name_in, number_in, shard_in};
use arrayvec::ArrayVec;
use bridge_rule::{LOGS, Name, Opening};

/// What a bridge begins with: its machine's name, the last barrier that counts at its position, and how many records
/// of each log count there.
#[derive(Drop)]
pub struct Beginning {
    pub machine: Name,
    pub last: Opening,
    pub counts: [u64; LOGS],
    ghost number: { last.number < INDEX_END },
    ghost within: { All (λ count. count ≤ INDEX_END) counts },
}

/// A line that a bridge begins with.
#[derive(Drop)]
pub enum Given {
    /// The last barrier that counts.
    Position(Opening),
    /// The machine's name.
    Machine(Name),
    /// So many records of a shard count.
    Count(Counted),
}

impl Given {
    /// What a line gives.
    #[tactic(auto, unfolding(crate::specs::Givens::given_in))]
    pub fn parse(turn: &[u8]) -> Option<Given>
        ensures given { option_map given_of result ≡ given_in turn.now }
        ensures within { IfSome result IsGivenWithin }
    {
        let (line, rest) = cut(b'\n', turn)?;
        if !rest.is_empty() {
            return None;
        }
        let (word, more) = cut(b' ', line)?;
        by_word(word, more)
    }
}

#[tactic(auto, unfolding(crate::specs::Givens::given_by))]
fn by_word(word: &[u8], more: &[u8]) -> Option<Given>
    ensures given { option_map given_of result ≡ given_by word.now more.now }
    ensures within { IfSome result IsGivenWithin }
{
    if is_same(word, b"position") {
        let opening = position_in(more)?;
        return Some(Given::Position(opening));
    }
    if is_same(word, b"machine") {
        let name = name_in(more)?;
        return Some(Given::Machine(name));
    }
    if is_same(word, b"count") {
        let counted = count_in(more)?;
        return Some(Given::Count(counted));
    }
    None
}

/// The barrier of a position, or 0 where none counts.
#[tactic(auto, unfolding(crate::specs::Givens::position_in))]
fn position_in(words: &[u8]) -> Option<Opening>
    ensures barrier { option_map barrier_of result ≡ position_in words.now }
    ensures range { IfSome result (λ opening. opening.number < INDEX_END) }
{
    if is_same(words, b"0") {
        return Some(no_opening());
    }
    barrier_in(words)
}

/// The barrier that counts before the first one.
fn no_opening() -> Opening
    ensures barrier { barrier_of result ≡ no_barrier }
    ensures range { result.number < INDEX_END }
{
    Opening {
        number: 0,
        name: ArrayVec::new(),
        machine: ArrayVec::new(),
    }
}

/// A shard, and how many of its records count.
#[tactic(auto, unfolding(crate::specs::Givens::count_in))]
fn count_in(words: &[u8]) -> Option<Counted>
    ensures counted { result ≡ count_in words.now }
    ensures range { IfSome result (λ counted. (counted.shard < LOGS) × (counted.number < INDEX_END)) }
{
    let (shard, number) = cut(b' ', words)?;
    let shard = shard_in(shard)?;
    let number = number_in(number)?;
    Some(Counted { shard, number })
}

impl Beginning {
    ghost use Rattle.bridge_lines.specs.Starts.{start_of, given_to};

    /// No barrier counts, and no record.
    pub fn new() -> Beginning
        ensures machine { result.machine.items ≡ [] }
        ensures last { barrier_of result.last ≡ no_barrier }
        ensures counts { result.counts ≡ replicate LOGS 0 }
    {
        Beginning {
            machine: ArrayVec::new(),
            last: no_opening(),
            counts: [0; LOGS],
        }
    }

    /// What a line gives comes in place of what was given before. A position begins anew.
    pub fn take(&mut self, given: Given)
        requires { IsGivenWithin given }
        ensures { start_of self.new ≡ given_to (start_of self.old) given }
    {
        match given {
            Given::Position(opening) => {
                *self = Beginning::new();
                self.last = opening;
            }
            Given::Machine(name) => self.machine = name,
            Given::Count(counted) => self.counts[usize::from(counted.shard)] = counted.number,
        }
    }
}
