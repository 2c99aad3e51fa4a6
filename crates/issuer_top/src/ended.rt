//! What a run gives back.

use issuer_base::Desk;

/// What a run gives back: its status, the desk, and all that was opened.
pub struct Ended<D: Desk> {
    /// 0: all lines were answered, checked or taken, all cards shown, all records exported, a world played, a DOL
    /// filled, or a change of a PIN written; 1: the words are no command; 2: the configuration is none; 3: an input
    /// failed; 4: the sink failed; 5: a journal, old or new, can't be opened, or its store failed while it was loaded
    /// or read again, or at a record of a feed; 6: a line of a journal is bad, or of an old one; 7: no memory was left;
    /// 8: the request file, the clearing file or the feed goes past a limit; 9: the DOL is broken; 10: the data are;
    /// 11: a line of the feed is bad; 12: the card or the key for a change of a PIN is missing.
    pub status: u8,
    /// The desk that was given.
    pub desk: D,
    /// The configuration, if it was opened.
    pub config: Option<D::Input>,
    /// The request file, the clearing file or the feed, if it was opened.
    pub requests: Option<D::Input>,
    /// The stores of the old journals that were opened, in the order of their shards. They were only read.
    pub olds: Vec<D::Journal>,
    /// The stores of the journals that were opened, in the order of their shards.
    pub stores: Vec<D::Journal>,
}
