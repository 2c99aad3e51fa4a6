//! Truncating a store to its text, at a start.
ghost use Rattle.std.specs.Prelude.{◌≡◌, ◌≤◌, ℕ, List, [], ◌++◌, length, IfSome, IsOkAnd, OnOk, is_err, true};
ghost use Rattle.issuer_base.specs.OutsideFaults.{CountsFaults};
ghost use Rattle.issuer_base.specs.Stores.{BothTold, CutsBytes, HasRoom, LeavesOnly};
ghost use Rattle.issuer_base.specs.Tells.{Tells};
ghost use Rattle.journal_store.specs.Images.{HasSafeText, IsCutImage, IsImage};

use issuer_base::{Store, StoreFail};

/// Truncates the store to its first `sure` bytes, and makes these durable, by one sync.
pub(crate) fn settle<S: Store>(store: &mut S, sure: u64) -> Result<(), StoreFail>
    requires { sure ≤ S.size store.old }
    ensures size { OnOk result (S.size store.new ≡ sure) }
    ensures bytes { (text rest : List ℕ) → length text ≡ sure → Tells (S.bytes store.old) (text ++ rest)
        → OnOk result (IfSome (S.bytes store.new) (IsImage text [])) }
    ensures disk { (text rest : List ℕ) → length text ≡ sure → Tells (S.bytes store.old) (text ++ rest)
        → OnOk result (IfSome (S.disk store.new) (λ disk. HasSafeText text [] disk.now)) }
    ensures kept { BothTold (CutsBytes sure true) (S.bytes store.old) (S.bytes store.new) }
    ensures crash { BothTold (λ old new. LeavesOnly (IsCutImage sure old.now) old new) (S.disk store.old)
        (S.disk store.new) }
    ensures room { (spare : ℕ) → HasRoom spare (S.size store.old) (S.room store.old)
        → IsOkAnd result (λ _. HasRoom spare (S.size store.new) (S.room store.new)) }
    ensures count { CountsFaults (S.faults store.old) (S.faults store.new) (is_err result) }
{
    if sure == store.len() {
        // The run that wrote these bytes may have ended before it synced them.
        return store.sync();
    }
    // A truncation makes durable what it leaves.
    store.cut(sure)
}
