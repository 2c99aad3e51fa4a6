//! The law of machines over one stream.
ghost use Rattle.std.specs.Prelude.{◌≡◌, ◌≢◌, ◌+◌, ℕ, Bool, false, List, [], ◌∷◌, length, All};
ghost use Rattle.one_history.specs.Streams.{Text, Word, Barrier, Indexed, OfBarrier, OfRecords, OfMark, OfNothing};
ghost use Rattle.one_history.specs.Streams.{Count, CountsNothing, OpensBy, AddsOne};
ghost use Rattle.one_history.specs.Machines.{World, new_world};
ghost use Rattle.one_history.specs.Events.{Event, IsRun, AreAllowed, AfterEachRun, end_of, after, CanRead};
ghost use Rattle.one_history.specs.Keys.{Keys, IsFirst, Passes};
ghost use Rattle.one_history.specs.Promises.{IsSafe, KeepsReplies, HasOneReply, MayFallBack, CutsUnanswered};
ghost use Rattle.one_history.specs.Promises.{HasOnlyCounted, CutsNothing, brings_unread};
ghost use Rattle.one_history.specs.FirstReply as first_reply;

/// The rule of what counts in a stream, sentence by sentence.
///
/// A message that can't be read counts nothing, and so does a mark. A barrier counts if its number is that of the last
/// one that counts, plus one. A record counts if its message has the name of that barrier and its index is the number
/// of its shard's records that count. The function does nothing.
pub fn only_the_next_counts()
    ensures unreadable { (count : Count) → CountsNothing count OfNothing }
    ensures marks { (count : Count) (word : Word) → CountsNothing count (OfMark word) }
    ensures number { (count : Count) (barrier : Barrier) → barrier.number ≢ count.barrier.number + 1
        → CountsNothing count (OfBarrier barrier) }
    ensures next { (count : Count) (barrier : Barrier) → barrier.number ≡ count.barrier.number + 1
        → OpensBy count barrier }
    ensures name { (count : Count) (name : Word) (records : List Indexed) → name ≢ count.barrier.name
        → CountsNothing count (OfRecords name records) }
    ensures index { (count : Count) (name : Word) (records : List Indexed)
        → All (λ one. one.index ≢ length (count.histories one.shard)) records
        → CountsNothing count (OfRecords name records) }
    ensures added { (count : Count) (one : Indexed) → one.index ≡ length (count.histories one.shard)
        → AddsOne count one }
{}

/// Whatever machines do over one stream, what counts is one history, and each reply names a record of it, for ever.
///
/// In every run: the world is safe; whatever happens afterwards, the record of each reply counts; a key has one reply;
/// no reply was sent for a record that is lost with the active machine; and no machine truncates a record that was
/// answered. The contract is a theorem on every run under every choice of keys; the function does nothing.
pub fn machines_make_one_history()
    ensures safe { (keys : Keys) → AfterEachRun (IsFirst keys) (IsSafe (IsFirst keys)) }
    ensures stays { (keys : Keys) → AfterEachRun (IsFirst keys) (λ world. (more : List Event)
        → KeepsReplies world (after world more)) }
    ensures one_reply { (keys : Keys) → AfterEachRun (IsFirst keys) (HasOneReply keys) }
    ensures fall_back { (keys : Keys) → AfterEachRun (IsFirst keys) (MayFallBack keys) }
    ensures cuts { (keys : Keys) → AfterEachRun (IsFirst keys) (λ world. (name : Word) (journals : ℕ → List Text)
        → CanRead world name journals → CutsUnanswered world name journals) }
{}

/// The same under any rule of which record may follow, as a test.
///
/// The contract is a theorem on every run under every such rule; the function does nothing.
pub fn machines_keep_any_rule()
    ensures { (test : ℕ → List Text → Text → Bool) → AfterEachRun (Passes test) (IsSafe (Passes test)) }
{}

/// A machine whose journals have nothing but what counts truncates none of it, until a host of it records.
///
/// So it is at the beginning. Whatever happens then to all machines, it stays so while no host of this machine records
/// and it isn't begun from copies: also where the machine dies, and reads on from an older position. So where such a
/// machine would truncate a record, the stream isn't the one that it had read. The function does nothing.
pub fn who_follows_truncates_nothing()
    ensures begins { (base : ℕ → List Text) (name : Word) → HasOnlyCounted (new_world base) name }
    ensures stays { (keys : Keys) (world : World) (name : Word) (events : List Event) → AreAllowed (IsFirst keys) world events
        → All (λ event. brings_unread name event ≡ false) events → HasOnlyCounted world name
        → HasOnlyCounted (after world events) name }
    ensures cuts { (world : World) (name : Word) (journals : ℕ → List Text) → HasOnlyCounted world name
        → CanRead world name journals → CutsNothing world name journals }
{}

/// There are runs in which a machine replies: ten events that each world allows, up to the first reply.
///
/// The function does nothing.
pub fn ten_events_reach_a_reply()
    ensures allowed { IsRun (IsFirst first_reply.keys) first_reply.empty_journals first_reply.events }
    ensures replied { (end_of first_reply.empty_journals first_reply.events).sent ≡ first_reply.answer ∷ [] }
{}
