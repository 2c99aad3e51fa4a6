//! The law of an export that is fed to a standby.
ghost use Rattle.std.specs.Prelude.{[], List, length, replicate};
ghost use Rattle.issuer_base.specs.declared.entry.Entry.{Entry};
ghost use Rattle.issuer_setup.specs.IssuerSetup.{Setup};
ghost use Rattle.journal_reader.specs.Exporting.{feed_text};
ghost use Rattle.journal_reader.specs.Copies.{FitFeeds};
ghost use Rattle.standby_node.specs.Primary.{AreLegal, ArePrefixes, IsPrimary};
ghost use Rattle.standby_node.specs.Streams.{TakesStream};

/// An export that is fed to a standby makes it its primary: each history is the same, whether the standby is new or has
/// the first records of some shards. So each journal has the same text. The primary's histories are legal, and the
/// indexes of their records are below 2^63.
///
/// A stream makes one list of histories, so these are the only ones that the feed can make.
pub fn an_export_makes_a_standby_its_primary()
    ensures new { (issuer : Setup) (primary : List (List Entry))
        → IsPrimary primary → AreLegal issuer primary → FitFeeds primary
        → TakesStream issuer (replicate (length primary) []) (feed_text primary) primary }
    ensures behind { (issuer : Setup) (primary opening : List (List Entry))
        → IsPrimary primary → AreLegal issuer primary → FitFeeds primary → ArePrefixes opening primary
        → TakesStream issuer opening (feed_text primary) primary }
{}
