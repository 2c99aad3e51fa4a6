//! The law of every restart.
ghost use Rattle.std.specs.Prelude.{ℕ, List, Option, Some};
ghost use Rattle.issuer_base.specs.declared.entry.Entry.{Entry};
ghost use Rattle.issuer_base.specs.Stores.{Moment};
ghost use Rattle.issuer_setup.specs.IssuerSetup.{Setup};
ghost use Rattle.shard_book.specs.Histories.{GoesOn, IsImageBetween};
ghost use Rattle.shard_book.specs.Loading.{IsOldText};
ghost use Rattle.one_caller.specs.Restarts.{IsHeld, LoadsBetween, LoadsPrefix};
ghost use Rattle.shard_book.specs.Shards.{IsFailedImage, IsLoadImage, IsTextOf};

/// Whatever a crash leaves of a journal loads again, even if the decision table has changed meanwhile. Of a shard that
/// answers it leaves an image of a history, as the clause `image` of `Shard::load` takes it. Of a journal that is being
/// loaded, or whose load failed, it leaves what a load takes for a prefix of its history, with each durable record.
/// The history of the old store is the same throughout.
///
/// The contract is a theorem on every history and image; the function does nothing.
pub fn every_image_loads_again()
    // While a shard answers: to the clause `image` of `Shard::load`.
    ensures between { (issuer : Setup) (shard : ℕ) (old first last : List Entry) (image : List ℕ)
        → IsHeld issuer shard old last → GoesOn old first → IsImageBetween issuer shard first last image
        → LoadsBetween issuer shard old first last image }

    // While a journal is loaded, by `leaves` of `IsLoadedFrom`, or if that fails of `IsNotLoaded`: to `exact`.
    ensures opened { (issuer : Setup) (shard : ℕ) (old history : List Entry) (moment : Moment) (image : List ℕ)
        → IsTextOf issuer shard old (Some moment.bytes) history
        → IsLoadImage old history moment image → LoadsPrefix issuer shard old history moment.safe image }
    ensures failed { (issuer : Setup) (shard : ℕ) (old_bytes : Option (List ℕ)) (old history : List Entry)
        (moment : Moment) (image : List ℕ) → IsOldText issuer shard old_bytes old
        → IsTextOf issuer shard old (Some moment.bytes) history
        → IsFailedImage old_bytes moment image → LoadsPrefix issuer shard old history moment.safe image }
{}
