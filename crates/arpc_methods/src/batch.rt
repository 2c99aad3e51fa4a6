//! Answers whose issuer authentication data are made together.
ghost use Rattle.std.specs.Prelude.{◌≡◌, ◌↔◌, ◌<◌, ◌≤◌, length, slice_get, Some, IfSome, IsSome};
ghost use Rattle.arpc_methods.specs.Batch.{no_answers, with_answer};
ghost use Rattle.arpc_methods.specs.declared.batch.TheConstants.{FEWEST_IN_LANES};

use crate::ahead::{AnswerParts, MadeAhead, arpc_blocks};
use arrayvec::ArrayVec;
use des_block::Key16;
use issuer_base::Method;
use std::marker::Model;

/// The fewest answers that are worth lanes: somewhat more than where both ways take as long.
pub const FEWEST_IN_LANES: usize = 48;

/// Up to 128 answers under triple DES, by their indices, whose issuer authentication data are made together.
///
/// A contract sees the answers, with zeros at an index without one, how many there are, and for how many indices the data
/// are made.
#[derive(Drop)]
pub struct AnswerBatch {
    answers: ArrayVec<AnswerParts, 128>,

    /// How many answers there are.
    count: usize,

    /// The ARPC of each answer, or none.
    blocks: ArrayVec<[u8; 8], 128>,
}

impl Model for AnswerBatch {
    ghost use Rattle.std.specs.Prelude.{◌≡◌, ◌≤◌, length, map, take};
    ghost use Rattle.arpc_methods.specs.Ahead.{arpc_block};
    ghost use Rattle.arpc_methods.specs.Batch.{Batch};

    ghost Value = { Batch };

    ghost view = { λ batch. record {
      answers = batch.answers.items;
      count = batch.count;
      made = length batch.blocks.items;
    } };

    ghost invariant = { λ batch. (batch.count ≤ length batch.answers.items)
        × (batch.blocks.items ≡ take (length batch.blocks.items) (map arpc_block batch.answers.items)) };
}

impl AnswerBatch {
    /// No answers.
    pub fn new() -> AnswerBatch
        ensures { result ≡ no_answers }
    {
        AnswerBatch {
            answers: ArrayVec::new(),
            count: 0,
            blocks: ArrayVec::new(),
        }
    }

    /// Adds the answer of the next index, or that there is none.
    pub fn add(&mut self, answer: Option<AnswerParts>)
        requires { length self.old.answers < 128 }
        ensures { self.new ≡ with_answer answer self.old }
    {
        match answer {
            Some(parts) => {
                self.answers.push(parts);
                self.count += 1;
            }
            None => self.answers.push(AnswerParts::default()),
        }
    }

    /// Makes the issuer authentication data of all, in lanes, if there are enough answers for that: [`FEWEST_IN_LANES`].
    pub fn make(&mut self)
        ensures answers { self.new.answers ≡ self.old.answers }
        ensures count { self.new.count ≡ self.old.count }
        ensures made { FEWEST_IN_LANES ≤ self.old.count → self.new.made ≡ length self.old.answers }
        ensures few { self.old.count < FEWEST_IN_LANES → self.new.made ≡ self.old.made }
    {
        if self.count >= FEWEST_IN_LANES {
            self.blocks = arpc_blocks(self.answers.as_slice());
        }
    }

    /// The issuer authentication data of the answer with this index, if they were made.
    pub fn get(&self, index: usize) -> Option<MadeAhead>
        ensures made { IsSome result ↔ (index < self.now.made) }
        ensures parts { IfSome result (λ made. slice_get self.now.answers index ≡ Some made.parts) }
    {
        let block = self.blocks.as_slice().get(index)?;
        Some(MadeAhead {
            parts: self.answers.as_slice()[index],
            block: *block,
        })
    }

    /// Removes all.
    pub fn clear(&mut self)
        ensures { self.new ≡ no_answers }
    {
        self.answers.clear();
        self.count = 0;
        self.blocks.clear();
    }
}

/// Zeros, by method 1.
impl Default for AnswerParts {
    ghost use Rattle.std.specs.Prelude.{◌≡◌};
    ghost use Rattle.arpc_methods.specs.Batch.{blank};

    ghost is_default = { λ parts. parts ≡ blank };

    fn default() -> AnswerParts {
        AnswerParts {
            method: Method::One,
            key: Key16([0; 16]),
            ac: [0; 8],
            arc: [0; 2],
            csu: [0; 4],
        }
    }
}
