//! The opening logs as a table's key. They exist in proofs alone, so a `Mark` of no bytes carries them.
ghost use Rattle.std.specs.Prelude.{◌≡◌, ℕ, List, [], IfOk};
ghost use Rattle.turn_book.specs.declared.logs.Log.{Log};

use crate::logs::Log;
use atomic_table::{Mark, PerchRule, RuledPerch, Table, TableRule};
use std::alloc::{AllocError, Global};
use std::collections::LinkedList;
use std::marker::{Brand, PhantomData};

/// The opening log of each shard.
pub(crate) type Opening<I, B> = Mark<LinkedList<Log<I, B>>>;

/// The opening logs of a table. The caller of `load` passes `Brand`, and its proof chooses them.
pub trait OpeningLogs<I, B> {
    // The opening log of each shard.
    ghost opening: { List (Log I B) };
}

impl<I, B> OpeningLogs<I, B> for Brand {
    ghost opening = { [] };
}

/// The empty rule, for a table and a perch without an invariant.
struct Anything;

impl TableRule<(), (), ()> for Anything {
    ghost holds = { λ _ _. Unit {0} };

    ghost first = { λ _. tt };
}

struct Tells<J>(PhantomData<J>);

impl<J: OpeningLogs<I, B>, I, B> PerchRule<LinkedList<Log<I, B>>> for Tells<J> {
    ghost holds = { λ _ _. Unit {0} };

    ghost first = { J.opening };
}

/// A key with these opening logs. It comes from a table without words, which ends here.
pub(crate) fn opening_key<J: OpeningLogs<I, B>, I, B>(
    alloc: Global,
) -> Result<Opening<I, B>, AllocError>
    ensures { IfOk result (λ key. key.view ≡ J.opening) }
{
    let (_table, seat) = Table::<(), (), (), Anything, Global>::of_words(alloc, &[], &())?;
    let (_perch, key) = RuledPerch::<(), (), LinkedList<Log<I, B>>, Tells<J>>::new(&seat, 0);
    Ok(key)
}
