//! The lines of all cards.
ghost use Rattle.std.specs.Prelude.{◌≡◌, ◌<◌, List, is_err};
ghost use Rattle.issuer_base.specs.OutsideFaults.{CountsFaults};
ghost use Rattle.issuer_base.specs.Sink.{WritesAll};
ghost use Rattle.host_loading.specs.Books.{ShardBook};
ghost use Rattle.host_loading.specs.Hosts.{Stand};
ghost use Rattle.desk_host.specs.Shown.{shown_text};

use crate::card_line::write_card;
use arrayvec::ArrayVec;
use issuer_base::{Sink, Store, WriteFault, write_all};
use one_caller::Solo;

/// Writes a line for each card of a host, in order.
pub fn show<T: Store, W: Sink>(host: &Solo<T>, out: &mut W) -> Result<(), WriteFault>
    requires { 0 < host.now.issuer.shards }
    ensures shown { (books : List ShardBook) → Stand host.now.issuer host.now.shards.items books
        → WritesAll (W.held out.old) (W.held out.new) result (shown_text host.now.issuer books host.now.issuer.cards) }
    ensures count { CountsFaults (W.faults out.old) (W.faults out.new) (is_err result) }
{
    let issuer = host.issuer();
    let mut text = ArrayVec::new();
    for number in 0..issuer.cards() {
        let card = issuer.info(number);
        write_card(&card.pan, card.psn, &host.show(number), &mut text);
        write_all(out, text.as_slice())?;
    }
    Ok(())
}
