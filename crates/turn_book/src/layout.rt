//! The layout of the words: the index of each shard's turn word and count word.
ghost use Rattle.std.specs.Prelude.{◌≡◌};
ghost use Rattle.turn_book.specs.Layout.{turn_word_of, count_word_of};

/// How many words a shard has: its turn, its count, and padding to a cache line.
pub(crate) const SHARD_WORDS: usize = 8;

/// The value of a turn word while no caller has the turn.
pub(crate) const FREE: u64 = 0;

/// The value of a turn word while a caller has the turn.
pub(crate) const TAKEN: u64 = 1;

/// The index of the word that says whether the shard's turn is taken.
pub(crate) fn turn_word(shard: u8) -> usize
    ensures { result ≡ turn_word_of shard }
{
    SHARD_WORDS * shard as usize
}

/// The index of the word that counts the items of the shard's log.
pub(crate) fn count_word(shard: u8) -> usize
    ensures { result ≡ count_word_of shard }
{
    SHARD_WORDS * shard as usize + 1
}
