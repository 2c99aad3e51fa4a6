//! Reading the bytes of a store into a buffer.
ghost use Rattle.std.specs.Prelude.{◌≡◌, ◌-◌, ◌≤◌, min, length, take, drop, IfOk, IfSome, is_err};
ghost use Rattle.issuer_base.specs.OutsideFaults.{CountsFaults};
ghost use Rattle.issuer_base.specs.Stores.{BothTold, WorksWithin};
ghost use Rattle.journal_store.specs.Images.{OnlyReads};

use issuer_base::{Store, StoreFail};

/// Fills a buffer with the bytes of a store from an offset on, as far as they go, and returns how many these are.
pub fn read_from<S: Store>(store: &mut S, at: u64, into: &mut [u8]) -> Result<usize, StoreFail>
    requires { at ≤ S.size store.old }
    ensures all { IfOk result (λ count. count ≡ min (length into.new) (S.size store.old - at)) }
    ensures given { IfOk result (λ count. IfSome (S.bytes store.old)
        (λ told. take count into.new ≡ take count (drop at told))) }
    ensures size { S.size store.new ≡ S.size store.old }
    ensures bytes { S.bytes store.new ≡ S.bytes store.old }
    ensures disk { BothTold OnlyReads (S.disk store.old) (S.disk store.new) }
    ensures room { WorksWithin 0 (is_err result) (S.size store.old) (S.room store.old) (S.room store.new) }
    ensures count { CountsFaults (S.faults store.old) (S.faults store.new) (is_err result) }
{
    let room = (store.len() - at).min(into.len() as u64) as usize;
    let mut count = 0;
    while count < room {
        count += store.read_at(at + count as u64, &mut into[count..room])?;
    }
    Ok(count)
}
