//! Command-line arguments.
ghost use Rattle.std.specs.Prelude.{◌≡◌, ◌<◌, [], ◌∷◌, ◌++◌, length, slice_get, Some, OnOk, OnErr};

use crate::faults::NoMemory;
use std::alloc::Global;
use std::marker::Model;

/// Command-line arguments.
///
/// A contract sees the list of the arguments, each as the list of its bytes.
#[derive(Drop)]
pub struct Words {
    kept: Vec<String>,
    alloc: Global,
}

impl Model for Words {
    ghost use Rattle.std.specs.Prelude.{List, ℕ, map};
    ghost use Rattle.std.specs.String.{string_bytes};

    ghost Value = { List (List ℕ) };

    ghost view = { λ words. map string_bytes words.kept.items };
}

impl Words {
    /// No arguments. Each `push` allocates from `alloc`.
    pub fn new(alloc: Global) -> Words
        ensures { result ≡ [] }
    {
        Words {
            kept: Vec::new(alloc),
            alloc,
        }
    }

    /// Appends an argument. If memory runs out the arguments don't change.
    pub fn push(&mut self, word: &str) -> Result<(), NoMemory>
        ensures added { OnOk result (self.new ≡ self.old ++ word.now ∷ []) }
        ensures refused { OnErr result (self.new ≡ self.old) }
    {
        let word = String::from_str(self.alloc, word)?;
        self.kept.push(word)?;
        Ok(())
    }

    /// How many arguments there are.
    pub fn count(&self) -> usize
        ensures { result ≡ length self.now }
    {
        self.kept.len()
    }

    /// The argument at this index, from 0.
    pub fn word(&self, index: usize) -> &str
        requires { index < length self.now }
        ensures { slice_get self.now index ≡ Some result.now }
    {
        self.kept[index].as_str()
    }
}
