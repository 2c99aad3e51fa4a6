//! Laws of the lines of a feed.
ghost use Rattle.std.specs.Prelude.{◌≡◌, ℕ, ◌^◌, ◌<◌, List};
ghost use Rattle.issuer_base.specs.declared.entry.Entry.{Entry};
ghost use Rattle.journal_rec.specs.RecordText.{text_of};
ghost use Rattle.feed_text.specs.FeedText.{HasHead, feed_line};
ghost use Rattle.feed_text.specs.declared.limits.TheConstants.{PLACE_END};

/// A line begins with at most one shard and index, and a feed line with its own.
pub fn a_line_has_one_head()
    ensures own { (shard place : ℕ) (entry : Entry) → shard < 2 ^ 64 → place < PLACE_END
        → HasHead (feed_line shard place entry) shard place (text_of entry) }
    ensures one { (line : List ℕ) (shard place : ℕ) (rest : List ℕ) (other_shard other_place : ℕ) (behind : List ℕ)
        → HasHead line shard place rest → HasHead line other_shard other_place behind
        → (shard ≡ other_shard) × (place ≡ other_place) × (rest ≡ behind) }
{}
