//! A change of a PIN: the line that queues its command.
ghost use Rattle.std.specs.Prelude.{◌≡◌, ℕ, List, None};
ghost use Rattle.answer_text.specs.QueueText.{queue_text};
ghost use Rattle.command_line.specs.Command.{IsPin};
ghost use Rattle.command_line.specs.Pairs.{order_of};
ghost use Rattle.secure_msg.specs.PinChange.{pin_command};
ghost use Rattle.issuer_top.specs.PinChanges.{changing, smc_for, ways_to_change, ChangesBy};
ghost use Rattle.issuer_top.specs.Seen.{seen_by};
ghost use Rattle.issuer_top.specs.Stopping.{GivesText};
ghost use Rattle.issuer_top.specs.Ways.{Ends};

use crate::ended::Ended;
use crate::ending::{Ending, end_writing};
use crate::opening::open_issuer;
use crate::run::Run;
use crate::stopping::stop_with;
use answer_text::{Stop, write_queue};
use arrayvec::ArrayVec;
use command_line::PinWords;
use des_block::Key16;
use desk_host::Journals;
use issuer_base::{Desk, Sink, write_all};
use issuer_setup::Issuer;
use key_derive::card_smc;
use secure_msg::pin_command;

impl<D: Desk> Run<D> {
    /// Reads the configuration, and writes the line that queues the change of the PIN.
    pub fn change_pin<W: Sink>(mut self, order: PinWords<'_>, out: &mut W) -> Ended<D>
        ensures { (words : List (List ℕ)) → IsPin words (order_of order.entry)
            → let seen = seen_by D.Desk D.Input.Source D.Journal.Store W.Sink self.desk result out.old out.new in
            Ends (ways_to_change (order_of order.entry) seen) result.status seen }
    {
        let alloc = self.alloc;
        match open_issuer(alloc, &mut self.desk, order.config) {
            Ok((issuer, config)) => {
                let ending = write_change(&issuer, &order, out);
                self.ended(ending, Some(config), None, Journals::none(alloc))
            }
            Err(none) => self.not_opened(none, out),
        }
    }
}

/// Writes the line that queues the change of the PIN, and says how the run ends.
fn write_change<W: Sink>(issuer: &Issuer, order: &PinWords<'_>, out: &mut W) -> Ending
    ensures { ChangesBy (changing issuer.now (order_of order.now)) (W.held out.old) (W.held out.new)
        (W.faults out.old) (W.faults out.new) result }
{
    match smc_for(issuer, order) {
        Some(smc) => print_change(&smc, order, out),
        None => stop_with(Stop::NoKey, out),
    }
}

/// The card's master key for confidentiality, under the key set that the order names; `None` if there is no such card,
/// no such key set, or no such key in it.
fn smc_for(issuer: &Issuer, order: &PinWords<'_>) -> Option<Key16>
    ensures { result ≡ smc_for issuer.now (order_of order.now) }
{
    issuer.card(&order.pan, order.psn)?;
    let set = issuer.key_set(order.dki)?;
    card_smc(set, &order.pan, order.psn)
}

/// Writes the line that queues the change of the PIN for the card with this key, and says how the run ends.
fn print_change<W: Sink>(smc: &Key16, order: &PinWords<'_>, out: &mut W) -> Ending
    ensures { GivesText (W.held out.old) (W.held out.new) (W.faults out.old) (W.faults out.new)
        (queue_text order.now.pan order.now.psn (pin_command smc.now.0 order.now.salt order.now.pin)) result }
{
    let command = pin_command(smc, order.salt, &order.pin);
    let mut text = ArrayVec::new();
    write_queue(&order.pan, order.psn, &command, &mut text);
    end_writing(write_all(out, text.as_slice()))
}
