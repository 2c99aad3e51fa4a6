//! The laws of what a crash leaves of a standby.
ghost use Rattle.std.specs.Prelude.{◌≡◌, ℕ, List, slice_get, Some};
ghost use Rattle.issuer_base.specs.declared.entry.Entry.{Entry};
ghost use Rattle.issuer_setup.specs.IssuerSetup.{Setup};
ghost use Rattle.one_caller.specs.Restarts.{IsHeld, LoadsBetween};
ghost use Rattle.shard_book.specs.Histories.{GoesOn};
ghost use Rattle.journal_rec.specs.RecordText.{journal_text};
ghost use Rattle.journal_store.specs.Images.{IsImage};
ghost use Rattle.standby_node.specs.Standing.{IsReplicaBetween};
ghost use Rattle.issuer_top.specs.Replicas.{IsFedBy, IsInDoubt, IsPrefixAndTorn, IsPrefixOfText};

/// Whatever a crash leaves of a standby's journal loads again, by the clause `image` of `Shard::load`, even if the
/// decision table has changed meanwhile: as of a shard that answers, for a history between the first and the last.
///
/// The contract is a theorem on every history and image; the function does nothing.
pub fn every_image_of_a_standby_loads_again()
    ensures { (issuer : Setup) (shard : ℕ) (old first last : List Entry) (image : List ℕ)
        → IsHeld issuer shard old last → GoesOn old first → IsReplicaBetween issuer shard first last image
        → LoadsBetween issuer shard old first last image }
{}

/// Let a standby be fed with lines of a primary's records, each at its index, and its histories be prefixes of the
/// primary's before. Then what a crash leaves of a shard's journal, since the journals were loaded, is the text of the
/// first records of the primary's, and maybe a prefix of one record more. After the run it is a prefix of the primary's
/// own text, also where the store failed at a record.
///
/// The contract is a theorem on every history and image; the function does nothing.
pub fn a_crash_leaves_a_standby_a_prefix_of_its_primary()
    ensures meanwhile { (issuer : Setup) (primary opening histories : List (List Entry))
        → IsFedBy issuer primary opening histories
        → (shard : ℕ) (first last theirs : List Entry) (image : List ℕ)
        → slice_get histories shard ≡ Some last → slice_get primary shard ≡ Some theirs
        → IsReplicaBetween issuer shard first last image → IsPrefixAndTorn issuer shard theirs image }
    ensures after { (issuer : Setup) (primary opening histories : List (List Entry))
        → IsFedBy issuer primary opening histories
        → (shard : ℕ) (last theirs : List Entry) (tail image : List ℕ)
        → slice_get histories shard ≡ Some last → slice_get primary shard ≡ Some theirs
        → IsInDoubt issuer primary histories shard last tail → IsImage (journal_text last) tail image
        → IsPrefixOfText theirs image }
{}
