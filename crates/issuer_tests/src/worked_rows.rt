//! Worked rows: runs with their arguments, configuration, request lines, journal and failing calls, and the expected
//! outcome of each.
//!
//! The rows are in groups, since the checker writes out a whole table wherever it is named.

use crate::running::{NONE_FAILS, Run, SERVE, SHOW, Texts, joined, one_journal, one_shard, run_at};
use crate::samples::*;
use issuer_base::OpenGate;
use std::sync::Wait;
use std::test::Fail;
use std::thread::Threads;

/// A row without request lines, over an empty journal.
pub(crate) const SERVED: Run = Run {
    name: "",
    words: SERVE,
    config: CONFIG,
    requests: &[],
    old: &[],
    before: Some(&[]),
    fails: NONE_FAILS,
    answers: &[],
    status: 0,
    after: None,
};

/// A row that shows the cards of the last row's journal.
const SHOWN: Run = Run {
    words: SHOW,
    before: None,
    ..SERVED
};

/// A row that shows the cards of journals of its own.
const SHOWN_ANEW: Run = Run {
    words: SHOW,
    ..SERVED
};

/// Lines that are refused for their text.
static LINES: [Run; 4] = [
    Run {
        name: "no lines",
        after: Some(&[VERSION]),
        ..SERVED
    },
    Run {
        name: "lines that are none",
        requests: &["\nX\nA\nA 9F3\nA 9G\nQ 4000000000000002 0 84160000\n"],
        answers: &[
            "refused 1 1\nrefused 1 1\nrefused 1 2\nrefused 1 6\nrefused 1 4\nrefused 1 21\n",
        ],
        after: Some(&[VERSION]),
        ..SERVED
    },
    Run {
        name: "chip data that breaks off",
        requests: &["A 9F3602\nA 9F36810207\nA 9F3681020007\n"],
        answers: &["refused 2 0\nrefused 2 0\nrefused 3 5a\n"],
        after: Some(&[VERSION]),
        ..SERVED
    },
    Run {
        name: "broken fields",
        requests: &[BROKEN_FIELDS],
        answers: &["refused 4 9f02\nrefused 5 9f36\nrefused 7\nrefused 8 09\nrefused 6\n"],
        after: Some(&[VERSION]),
        ..SERVED
    },
];

fn lines() -> &'static [Run] {
    &LINES
}

/// Decisions, repeats and conflicts.
static DECISIONS: [Run; 9] = [
    Run {
        name: "another spelling of a request",
        requests: &[REQUEST_7, REQUEST_7_LONG_LENGTH],
        answers: &[FRESH_7, KEPT_7],
        after: Some(&[VERSION, DECISION_7, REPLY_7]),
        ..SERVED
    },
    Run {
        name: "a forged cryptogram",
        requests: &[REQUEST_7_FORGED, REQUEST_7],
        answers: &["refused 9\n", FRESH_7],
        after: Some(&[VERSION, DECISION_7, REPLY_7]),
        ..SERVED
    },
    Run {
        name: "another request on a used counter",
        requests: &[REQUEST_7, REQUEST_7_OTHER],
        answers: &[FRESH_7, "refused 11 0 0\n"],
        after: Some(&[VERSION, DECISION_7, REPLY_7]),
        ..SERVED
    },
    Run {
        name: "a repeat",
        requests: &[REQUEST_7, REQUEST_7],
        answers: &[FRESH_7, KEPT_7],
        after: Some(&[VERSION, DECISION_7, REPLY_7]),
        ..SERVED
    },
    Run {
        name: "a repeat in the next run",
        requests: &[REQUEST_7],
        before: None,
        answers: &[KEPT_7],
        after: Some(&[VERSION, DECISION_7, REPLY_7]),
        ..SERVED
    },
    Run {
        name: "counters out of order",
        requests: &[REQUEST_1, REQUEST_257, REQUEST_1, REQUEST_2],
        answers: &[
            "fresh 0 0 yes 3030 ",
            REPLY_1,
            "fresh 0 1 yes 3030 ",
            REPLY_257,
            "refused 10 257\nfresh 0 2 yes 3030 ",
            REPLY_2,
        ],
        after: Some(&[
            VERSION,
            DECISION_1,
            REPLY_1,
            DECISION_257,
            REPLY_257,
            DECISION_2,
            REPLY_2,
        ]),
        ..SERVED
    },
    Run {
        name: "the first and the last counter",
        requests: &[REQUEST_0, REQUEST_65535],
        answers: &[
            "fresh 0 0 yes 3030 ",
            REPLY_0,
            "fresh 0 1 yes 3030 ",
            REPLY_65535,
        ],
        after: Some(&[VERSION, DECISION_0, REPLY_0, DECISION_65535, REPLY_65535]),
        ..SERVED
    },
    Run {
        name: "a status",
        requests: &[REQUEST_7_GREATEST, "S 4000000000000002 00 1\n", REQUEST_8],
        answers: &[
            "fresh 0 0 yes 3030 ",
            REPLY_7_GREATEST,
            "set 0 1\nfresh 0 2 no 3036 8a023036910a902d3107893ef92b3036\n",
        ],
        after: Some(&[
            VERSION,
            DECISION_7_GREATEST,
            REPLY_7_GREATEST,
            "s 4000000000000002ffff 00 1\n",
            DECISION_8_BLOCKED,
            "8a023036910a902d3107893ef92b3036\n",
        ]),
        ..SERVED
    },
    Run {
        name: "the greatest amount and one more",
        requests: &[REQUEST_7_GREATEST, REQUEST_8_MORE],
        answers: &[
            "fresh 0 0 yes 3030 ",
            REPLY_7_GREATEST,
            "fresh 0 1 no 3035 8a023035910a3ab012c7d40cd2803035\n",
        ],
        after: Some(&[
            VERSION,
            DECISION_7_GREATEST,
            REPLY_7_GREATEST,
            DECISION_8_MORE,
            "8a023035910a3ab012c7d40cd2803035\n",
        ]),
        ..SERVED
    },
];

fn decisions() -> &'static [Run] {
    &DECISIONS
}

/// AES cards.
static AES_CARDS: [Run; 4] = [
    Run {
        name: "a key set with triple DES keys alone",
        requests: &[AES_REQUEST_7],
        answers: &["refused 8 01\n"],
        after: Some(&[VERSION]),
        ..SERVED
    },
    Run {
        name: "an AES card and a repeat",
        config: AES_CONFIG,
        requests: &[AES_REQUEST_1, AES_REQUEST_1],
        answers: &[
            "fresh 0 0 yes 3030 ",
            AES_REPLY_1,
            "kept 0 0 yes 3030 ",
            AES_REPLY_1,
        ],
        after: Some(&[VERSION, AES_DECISION_1, AES_REPLY_1]),
        ..SERVED
    },
    Run {
        name: "five commands for an AES card",
        config: AES_CONFIG,
        requests: &[FIVE_COMMANDS, AES_REQUEST_7],
        answers: &[FIVE_QUEUED, "fresh 0 5 yes 3030 ", AES_REPLY_7_THREE],
        after: Some(&[VERSION, FIVE_RECORDED, AES_DECISION_7, AES_REPLY_7_THREE]),
        ..SERVED
    },
    Run {
        name: "a repeat with commands in the next run",
        config: AES_CONFIG,
        requests: &[AES_REQUEST_7],
        before: None,
        answers: &["kept 0 5 yes 3030 ", AES_REPLY_7_THREE],
        ..SERVED
    },
];

fn aes_cards() -> &'static [Run] {
    &AES_CARDS
}

/// The replies to what cards report of five commands, of which the first three were sent.
const LAST_THREE_SENT: &str =
    "8a023030910a0e00cd522aa6de7d303072709f180400000002862184da00001c0202020202020202020202020202020202020202d39224f7ef0200d3862184da00001c030303030303030303030303030303030303030338992183d3173ae9862184da00001c0404040404040404040404040404040404040404468f684393492633\n";

const FIRST_THREE_SENT: &str =
    "8a023030910aa98839ce18246b46303072709f180400000000862184da00001c000000000000000000000000000000000000000070cf017b350f1a6f862184da00001c01010101010101010101010101010101010101013482f0101fa5b515862184da00001c02020202020202020202020202020202020202024b010426dfb28ee2\n";

const SENT_AGAIN: &str =
    "8a023030910a418413b0a1361b42303072709f180400000000862184da00001c00000000000000000000000000000000000000008ba61ea7da7e2b53862184da00001c01010101010101010101010101010101010101019e8902d18533ffb5862184da00001c0202020202020202020202020202020202020202313cb67bc485d652\n";

/// Five commands, and what a card reports of them.
static REPORTS: [Run; 4] = [
    Run {
        name: "two of three commands ran",
        requests: &[FIVE_COMMANDS, REQUEST_7, REQUEST_9_RAN_TWO],
        answers: &[
            FIVE_QUEUED,
            "fresh 0 5 yes 3030 ",
            REPLY_7_THREE,
            "fresh 0 6 yes 3030 ",
            LAST_THREE_SENT,
        ],
        after: Some(&[
            VERSION,
            FIVE_RECORDED,
            DECISION_7,
            REPLY_7_THREE,
            DECISION_9_RAN_TWO,
            LAST_THREE_SENT,
        ]),
        ..SERVED
    },
    Run {
        name: "two of three commands ran, shown",
        answers: &[
            "4000000000000002 00 hi 9 status 0 queued 5 done 2 flight 9 3 ok\n",
            SECOND_UNTOUCHED,
        ],
        ..SHOWN
    },
    Run {
        name: "a count of an older reply",
        requests: &[FIVE_COMMANDS, REQUEST_7, REQUEST_9_OLDER],
        answers: &[
            FIVE_QUEUED,
            "fresh 0 5 yes 3030 ",
            REPLY_7_THREE,
            "fresh 0 6 yes 3030 ",
            FIRST_THREE_SENT,
        ],
        after: Some(&[
            VERSION,
            FIVE_RECORDED,
            DECISION_7,
            REPLY_7_THREE,
            DECISION_9_OLDER,
            FIRST_THREE_SENT,
        ]),
        ..SERVED
    },
    Run {
        name: "a count of an older reply, shown",
        answers: &[
            "4000000000000002 00 hi 9 status 0 queued 5 done 0 flight 9 3 ok\n",
            SECOND_UNTOUCHED,
        ],
        ..SHOWN
    },
];

fn reports() -> &'static [Run] {
    &REPORTS
}

/// Reports that send no further commands.
static HALTS: [Run; 4] = [
    Run {
        name: "a reply that was never sent",
        requests: &[FIVE_COMMANDS, REQUEST_7, REQUEST_9_UNKNOWN],
        answers: &[
            FIVE_QUEUED,
            "fresh 0 5 yes 3030 ",
            REPLY_7_THREE,
            "fresh 0 6 yes 3030 8a023030910a1ea2038d63149b603030\n",
        ],
        after: Some(&[
            VERSION,
            FIVE_RECORDED,
            DECISION_7,
            REPLY_7_THREE,
            DECISION_9_UNKNOWN,
            "8a023030910a1ea2038d63149b603030\n",
        ]),
        ..SERVED
    },
    Run {
        name: "a reply that was never sent, shown",
        answers: &[
            "4000000000000002 00 hi 9 status 0 queued 5 done 0 flight - halt\n",
            SECOND_UNTOUCHED,
        ],
        ..SHOWN
    },
    Run {
        name: "an older counter",
        requests: &[FIVE_COMMANDS, REQUEST_7, REQUEST_9, REQUEST_8_RAN_TWO],
        answers: &[
            FIVE_QUEUED,
            "fresh 0 5 yes 3030 ",
            REPLY_7_THREE,
            "fresh 0 6 yes 3030 ",
            SENT_AGAIN,
            "fresh 0 7 yes 3030 8a023030910adf8630a0b3cfc0f53030\n",
        ],
        after: Some(&[
            VERSION,
            FIVE_RECORDED,
            DECISION_7,
            REPLY_7_THREE,
            DECISION_9,
            SENT_AGAIN,
            DECISION_8_RAN_TWO,
            "8a023030910adf8630a0b3cfc0f53030\n",
        ]),
        ..SERVED
    },
    Run {
        name: "an older counter, shown",
        answers: &[
            "4000000000000002 00 hi 9 status 0 queued 5 done 0 flight 9 3 ok\n",
            SECOND_UNTOUCHED,
        ],
        ..SHOWN
    },
];

fn halts() -> &'static [Run] {
    &HALTS
}

/// More commands than may wait for a card.
static FULL_QUEUE: [Run; 3] = [
    Run {
        name: "65 commands",
        requests: &[LONG_COMMAND; 65],
        answers: &[SIXTY_FOUR_QUEUED, "refused 13\n"],
        after: None,
        ..SERVED
    },
    Run {
        name: "a full queue",
        requests: &[REQUEST_7, BAD_COMMANDS],
        before: None,
        answers: &[
            "fresh 0 64 yes 3030 8a023030910a02369be26b4161bc303072569f180400000000864d84da00004800000000000000000000000000000000000000000000000000000000000000000000000000000000000000000000000000000000000000000000000000000000f28bed5cf8405670\nrefused 14\nrefused 14\n",
        ],
        ..SERVED
    },
    Run {
        name: "a full queue, shown",
        answers: &[
            "4000000000000002 00 hi 7 status 0 queued 64 done 0 flight 7 1 ok\n",
            SECOND_UNTOUCHED,
        ],
        ..SHOWN
    },
];

fn full_queue() -> &'static [Run] {
    &FULL_QUEUE
}

/// Calls of the store that fail while a decision is recorded or the journal is loaded.
static STORE_FAULTS: [Run; 10] = [
    Run {
        name: "a sync that fails",
        requests: &[REQUEST_7, REQUEST_7],
        fails: [None, None, None, None, Some(4), None],
        answers: &["refused 15\n", FRESH_7],
        after: Some(&[VERSION, DECISION_7, REPLY_7]),
        ..SERVED
    },
    Run {
        name: "a repeat after a sync that failed",
        requests: &[REQUEST_7],
        before: None,
        answers: &[KEPT_7],
        after: Some(&[VERSION, DECISION_7, REPLY_7]),
        ..SERVED
    },
    Run {
        name: "a sync that fails at the last line",
        requests: &[REQUEST_7],
        fails: [None, None, None, None, Some(4), None],
        answers: &["refused 15\n"],
        after: Some(&[VERSION, DECISION_7, REPLY_7]),
        ..SERVED
    },
    Run {
        name: "a record in doubt that the next run finds",
        requests: &[REQUEST_7],
        before: None,
        answers: &[KEPT_7],
        after: Some(&[VERSION, DECISION_7, REPLY_7]),
        ..SERVED
    },
    Run {
        name: "an append that fails",
        requests: &[REQUEST_7, REQUEST_7],
        fails: [None, None, None, None, Some(3), None],
        answers: &["refused 15\n", FRESH_7],
        after: Some(&[VERSION, DECISION_7, REPLY_7]),
        ..SERVED
    },
    Run {
        name: "an old journal that can't be opened",
        requests: &["X\n"],
        fails: [None, None, Some(1), None, None, None],
        answers: &["stop 5 0\n"],
        status: 5,
        ..SERVED
    },
    Run {
        name: "a journal that can't be opened",
        requests: &["X\n"],
        fails: [None, None, Some(2), None, None, None],
        answers: &["stop 5 0\n"],
        status: 5,
        ..SERVED
    },
    Run {
        name: "an empty journal that can't be written",
        requests: &["X\n"],
        fails: [None, None, None, None, Some(0), None],
        answers: &["stop 5 0\n"],
        status: 5,
        ..SERVED
    },
    Run {
        name: "an old journal that can't be read",
        requests: &["X\n"],
        old: &[DECISION_7, REPLY_7],
        fails: [None, None, None, None, None, Some(0)],
        answers: &["stop 5 0\n"],
        status: 5,
        after: Some(&[]),
        ..SERVED
    },
    Run {
        name: "a journal that can't be read",
        requests: &["X\n"],
        before: Some(&[VERSION, DECISION_7, REPLY_7]),
        fails: [None, None, None, None, Some(0), None],
        answers: &["stop 5 0\n"],
        status: 5,
        after: Some(&[VERSION, DECISION_7, REPLY_7]),
        ..SERVED
    },
];

fn store_faults() -> &'static [Run] {
    &STORE_FAULTS
}

/// Calls of the other devices that fail.
static OTHER_FAULTS: [Run; 6] = [
    Run {
        name: "a configuration that can't be opened",
        fails: [None, None, Some(0), None, None, None],
        answers: &["stop 3\n"],
        status: 3,
        ..SERVED
    },
    Run {
        name: "a configuration that can't be read",
        fails: [Some(0), None, None, None, None, None],
        answers: &["stop 3\n"],
        status: 3,
        ..SERVED
    },
    Run {
        name: "requests that can't be read",
        requests: &["X\n"],
        fails: [None, Some(0), None, None, None, None],
        answers: &["stop 3\n"],
        status: 3,
        after: Some(&[VERSION]),
        ..SERVED
    },
    Run {
        name: "a sink that fails",
        requests: &["X\n"],
        fails: [None, None, None, Some(0), None, None],
        status: 4,
        after: Some(&[VERSION]),
        ..SERVED
    },
    Run {
        name: "a sink that fails at a decision",
        requests: &[REQUEST_7],
        fails: [None, None, None, Some(0), None, None],
        status: 4,
        after: Some(&[VERSION, DECISION_7, REPLY_7]),
        ..SERVED
    },
    Run {
        name: "a repeat of a decision that was never written",
        requests: &[REQUEST_7],
        before: None,
        answers: &[KEPT_7],
        after: Some(&[VERSION, DECISION_7, REPLY_7]),
        ..SERVED
    },
];

fn other_faults() -> &'static [Run] {
    &OTHER_FAULTS
}

/// Decisions on ATCs 1, 2 and 3, with a digit of the second cryptogram changed, and with the first record again for the second.
const CHANGED: &[&str] = &[
    VERSION,
    DECISION_1,
    REPLY_1,
    DECISION_2_CHANGED,
    REPLY_2,
    DECISION_3,
    REPLY_3,
];

const REPEATED: &[&str] = &[
    VERSION, DECISION_1, REPLY_1, DECISION_1, REPLY_1, DECISION_3, REPLY_3,
];

/// The first of them as a journal of version 1.
const OLD_CHANGED: &[&str] = &[
    DECISION_1,
    REPLY_1,
    DECISION_2_CHANGED,
    REPLY_2,
    DECISION_3,
    REPLY_3,
];

/// Journals that are torn or bad.
static JOURNALS: [Run; 6] = [
    Run {
        name: "a record with a digit changed",
        requests: &["X\n"],
        before: Some(CHANGED),
        answers: &["stop 6 0 3\n"],
        status: 6,
        after: Some(CHANGED),
        ..SERVED
    },
    Run {
        name: "a record twice",
        requests: &["X\n"],
        before: Some(REPEATED),
        answers: &["stop 6 0 3\n"],
        status: 6,
        after: Some(REPEATED),
        ..SERVED
    },
    Run {
        name: "a record twice, to be shown",
        before: Some(REPEATED),
        answers: &["stop 6 0 3\n"],
        status: 6,
        after: Some(REPEATED),
        ..SHOWN
    },
    Run {
        name: "a status and a command",
        requests: &["S 4000000000000002 00 3\nQ 4000000000000002 00 84160000\n"],
        answers: &["set 0 0\nqueued 0 1\n"],
        after: Some(&[
            VERSION,
            "s 4000000000000002ffff 00 3\n",
            "q 4000000000000002ffff 00 84160000\n",
        ]),
        ..SERVED
    },
    Run {
        name: "a torn last line",
        before: Some(&["v2\ns 4000000000000002ffff 00 3\nq 4000000000000002ffff 00 84160000"]),
        answers: &[
            "4000000000000002 00 hi - status 3 queued 0 done 0 flight - ok\n",
            SECOND_UNTOUCHED,
        ],
        after: Some(&[VERSION, "s 4000000000000002ffff 00 3\n"]),
        ..SHOWN
    },
    Run {
        name: "cards that nothing is known of",
        before: Some(&[]),
        answers: &[FIRST_UNTOUCHED, SECOND_UNTOUCHED],
        after: Some(&[VERSION]),
        ..SHOWN
    },
];

fn journals_found() -> &'static [Run] {
    &JOURNALS
}

pub(crate) const STATUS_3: &str = "s 4000000000000002ffff 00 3\n";

pub(crate) const COMMAND: &str = "q 4000000000000002ffff 00 84160000\n";

/// Journals of version 1, and what stands beside them.
static OLD_JOURNALS: [Run; 8] = [
    Run {
        name: "two old records",
        old: &[STATUS_3, COMMAND],
        answers: &[
            "4000000000000002 00 hi - status 3 queued 1 done 0 flight - ok\n",
            SECOND_UNTOUCHED,
        ],
        after: Some(&[VERSION, STATUS_3, COMMAND]),
        ..SHOWN_ANEW
    },
    Run {
        name: "a copy that was stopped in the second record",
        old: &[STATUS_3, COMMAND, "s 4000"],
        before: Some(&[VERSION, STATUS_3, "q 40000"]),
        answers: &[
            "4000000000000002 00 hi - status 3 queued 1 done 0 flight - ok\n",
            SECOND_UNTOUCHED,
        ],
        after: Some(&[VERSION, STATUS_3, COMMAND]),
        ..SHOWN_ANEW
    },
    Run {
        name: "a record after the copy, and a torn one",
        old: &[STATUS_3],
        before: Some(&[VERSION, STATUS_3, COMMAND, "q 40000"]),
        answers: &[
            "4000000000000002 00 hi - status 3 queued 1 done 0 flight - ok\n",
            SECOND_UNTOUCHED,
        ],
        after: Some(&[VERSION, STATUS_3, COMMAND]),
        ..SHOWN_ANEW
    },
    Run {
        name: "another record than the old journal's",
        old: &[STATUS_3],
        before: Some(&[VERSION, COMMAND]),
        answers: &["stop 6 0 2\n"],
        status: 6,
        after: Some(&[VERSION, COMMAND]),
        ..SHOWN_ANEW
    },
    Run {
        name: "a journal of version 1 in place of one of version 2",
        before: Some(&[STATUS_3]),
        answers: &["stop 6 0 1\n"],
        status: 6,
        after: Some(&[STATUS_3]),
        ..SHOWN_ANEW
    },
    Run {
        name: "an old record with a digit changed",
        old: OLD_CHANGED,
        answers: &["stop 6 0 old 2\n"],
        status: 6,
        after: Some(&[]),
        ..SHOWN_ANEW
    },
    Run {
        name: "an old record below its window",
        old: &[DECISION_65, REPLY_65, DECISION_1, REPLY_1],
        answers: &["stop 6 0 old 2\n"],
        status: 6,
        after: Some(&[]),
        ..SHOWN_ANEW
    },
    Run {
        name: "a repeat that the old window refused",
        requests: &[REQUEST_1],
        old: &[DECISION_1, REPLY_1, DECISION_65, REPLY_65],
        answers: &["kept 0 0 yes 3030 ", REPLY_1],
        after: Some(&[VERSION, DECISION_1, REPLY_1, DECISION_65, REPLY_65]),
        ..SERVED
    },
];

fn old_journals() -> &'static [Run] {
    &OLD_JOURNALS
}

/// Arguments that are no command, and configurations with a fault.
static SETTINGS: [Run; 10] = [
    Run {
        name: "words that are no command",
        words: "serve --config",
        answers: &["stop 1\n"],
        status: 1,
        ..SERVED
    },
    Run {
        name: "an option twice",
        words: "serve --config config --config config --requests requests --journal journal",
        answers: &["stop 1\n"],
        status: 1,
        ..SERVED
    },
    Run {
        name: "an option and its value in one word",
        words: "serve --config=config --requests requests --journal journal",
        answers: &["stop 1\n"],
        status: 1,
        ..SERVED
    },
    Run {
        name: "a value with a dash in front",
        words: "serve --config -c --requests requests --journal journal",
        answers: &["stop 1\n"],
        status: 1,
        ..SERVED
    },
    Run {
        name: "words in another order",
        words: "serve --journal journal --requests requests --config config",
        requests: &["X\n"],
        answers: &["refused 1 1\n"],
        after: Some(&[VERSION]),
        ..SERVED
    },
    Run {
        name: "a configuration that is a list",
        config: "[]",
        answers: &["stop 2 1 0\n"],
        status: 2,
        ..SERVED
    },
    Run {
        name: "a configuration without members",
        config: "{}",
        answers: &["stop 2 2 0\n"],
        status: 2,
        ..SERVED
    },
    Run {
        name: "a key index of more than a byte",
        config: LARGE_KEY_INDEX,
        answers: &["stop 2 3 1\n"],
        status: 2,
        ..SERVED
    },
    Run {
        name: "a card twice",
        config: CARD_TWICE,
        answers: &["stop 2 4 2\n"],
        status: 2,
        ..SERVED
    },
    Run {
        name: "a last row that leaves amounts out",
        config: PARTIAL_TABLE,
        answers: &["stop 2 5 3\n"],
        status: 2,
        ..SERVED
    },
];

fn settings() -> &'static [Run] {
    &SETTINGS
}

/// Worlds that are played, of one card and of 200. `tests/cases` has the second one with 20,000 steps.
static WORLDS: [Run; 2] = [
    Run {
        name: "a world of eight steps",
        words: "world --cards 1 --steps 8 --seed 0",
        answers: &[
            "taps 8\nfresh 7\napproved 4\nkept 1\nrefused 1\nauthenticated 4\nunauthenticated 2\nqueued 3\ndone 3\nran 3\nhalted 0\n",
        ],
        ..SERVED
    },
    Run {
        name: "a world of 2,000 steps",
        words: "world --cards 200 --steps 2000 --seed 7",
        answers: &[
            "taps 2000\nfresh 1725\napproved 875\nkept 250\nrefused 250\nauthenticated 1000\nunauthenticated 475\nqueued 750\ndone 425\nran 550\nhalted 0\n",
        ],
        ..SERVED
    },
];

fn worlds() -> &'static [Run] {
    &WORLDS
}

/// DOLs that are filled.
static DOLS: [Run; 6] = [
    Run {
        name: "every rule in one DOL",
        words: "fill --dol 9F02049F37069F1A035A0A9F3302 --data 9F02060000000123459F37041A2B3C4D9F1A0202765A084000000000000002",
        answers: &["000123451a2b3c4d00000002764000000000000002ffff0000\n"],
        ..SERVED
    },
    Run {
        name: "a value that is truncated",
        words: "fill --dol 9F3702 --data 9F37041A2B3C4D",
        answers: &["1a2b\n"],
        ..SERVED
    },
    Run {
        name: "a torn DOL",
        words: "fill --dol 95029F --data 9C0100",
        answers: &["stop 9 2\n"],
        status: 9,
        ..SERVED
    },
    Run {
        name: "data that repeat a tag",
        words: "fill --dol 9502 --data 9C01009C0100",
        answers: &["stop 10 3\n"],
        status: 10,
        ..SERVED
    },
    Run {
        name: "a torn DOL and data that repeat a tag",
        words: "fill --data 9C01009C0100 --dol 95029F",
        answers: &["stop 9 2\n"],
        status: 9,
        ..SERVED
    },
    Run {
        name: "half a byte of data",
        words: "fill --dol 9502 --data 9C010",
        answers: &["stop 1\n"],
        status: 1,
        ..SERVED
    },
];

fn dols() -> &'static [Run] {
    &DOLS
}

/// A change of the PIN of the first card to one of four digits.
const PIN_CHANGE: Run = Run {
    name: "a PIN of 4 digits",
    words: "pin --config config --pan 4000000000000002 --psn 00 --dki 01 --salt 0000000000000001 --pin 1234",
    config: PIN_CONFIG,
    answers: &["Q 4000000000000002 00 842400020000000000000001805487f58f3e41715997853eaa19fa4e\n"],
    after: None,
    ..SERVED
};

/// Changes to PINs of each number of digits.
static PIN_LENGTHS: [Run; 9] = [
    PIN_CHANGE,
    Run {
        name: "a PIN of 5 digits",
        words: "pin --config config --pan 4000000000000002 --psn 00 --dki 01 --salt 0000000000000001 --pin 12345",
        answers: &[
            "Q 4000000000000002 00 8424000200000000000000014e7072d50f03852e88c2a3599d2abdde\n",
        ],
        ..PIN_CHANGE
    },
    Run {
        name: "a PIN of 6 digits",
        words: "pin --config config --pan 4000000000000002 --psn 00 --dki 01 --salt 0000000000000001 --pin 123456",
        answers: &[
            "Q 4000000000000002 00 842400020000000000000001f19d6fbdfcd6d7385271147a3c9de40d\n",
        ],
        ..PIN_CHANGE
    },
    Run {
        name: "a PIN of 7 digits",
        words: "pin --config config --pan 4000000000000002 --psn 00 --dki 01 --salt 0000000000000001 --pin 1234567",
        answers: &[
            "Q 4000000000000002 00 842400020000000000000001393c435656c23a3dbdb9ffc03eac3518\n",
        ],
        ..PIN_CHANGE
    },
    Run {
        name: "a PIN of 8 digits",
        words: "pin --config config --pan 4000000000000002 --psn 00 --dki 01 --salt 0000000000000001 --pin 12345678",
        answers: &[
            "Q 4000000000000002 00 842400020000000000000001acbbd547cbc63cae60d5ac166e0350a6\n",
        ],
        ..PIN_CHANGE
    },
    Run {
        name: "a PIN of 9 digits",
        words: "pin --config config --pan 4000000000000002 --psn 00 --dki 01 --salt 0000000000000001 --pin 123456789",
        answers: &[
            "Q 4000000000000002 00 8424000200000000000000015502fc6f58acd33b3b87b1525c2c3bcc\n",
        ],
        ..PIN_CHANGE
    },
    Run {
        name: "a PIN of 10 digits",
        words: "pin --config config --pan 4000000000000002 --psn 00 --dki 01 --salt 0000000000000001 --pin 1234567890",
        answers: &[
            "Q 4000000000000002 00 842400020000000000000001d7b2885c0652e29d587f6c2336541ffa\n",
        ],
        ..PIN_CHANGE
    },
    Run {
        name: "a PIN of 11 digits",
        words: "pin --config config --pan 4000000000000002 --psn 00 --dki 01 --salt 0000000000000001 --pin 12345678901",
        answers: &[
            "Q 4000000000000002 00 8424000200000000000000010e9d35c2152c3d32da113ba0d290531d\n",
        ],
        ..PIN_CHANGE
    },
    Run {
        name: "a PIN of 12 digits",
        words: "pin --config config --pan 4000000000000002 --psn 00 --dki 01 --salt 0000000000000001 --pin 123456789012",
        answers: &[
            "Q 4000000000000002 00 842400020000000000000001dbf6bf74fd7526aaf4447e512d4c79b2\n",
        ],
        ..PIN_CHANGE
    },
];

pub(crate) fn pin_lengths() -> &'static [Run] {
    &PIN_LENGTHS
}

/// Changes of a PIN under a key set, and those whose card or key is missing.
static PIN_KEYS: [Run; 7] = [
    Run {
        name: "a second key set, of option B",
        words: "pin --config config --pan 4000000000000010 --psn 00 --dki 02 --salt aAbBcCdDeEfF0123 --pin 0000",
        config: TWO_KEY_SETS,
        answers: &[
            "Q 4000000000000010 00 84240002aabbccddeeff0123df3606a710113a40cbc8e09731a0ef5a\n",
        ],
        ..PIN_CHANGE
    },
    Run {
        name: "the first key set, and pairs in another order",
        words: "pin --pin 9999 --salt 0123456789ABCDEF --dki 01 --psn 00 --pan 4000000000000010 --config config",
        config: TWO_KEY_SETS,
        answers: &[
            "Q 4000000000000010 00 842400020123456789abcdeff7f50813977b0301ea390b264569b5f5\n",
        ],
        ..PIN_CHANGE
    },
    Run {
        name: "a key set without a key for confidentiality",
        config: CONFIG,
        answers: &["stop 12\n"],
        status: 12,
        ..PIN_CHANGE
    },
    Run {
        name: "a key set that isn't there",
        words: "pin --config config --pan 4000000000000002 --psn 00 --dki 02 --salt 0000000000000001 --pin 1234",
        answers: &["stop 12\n"],
        status: 12,
        ..PIN_CHANGE
    },
    Run {
        name: "an account number that no card has",
        words: "pin --config config --pan 4000000000000028 --psn 00 --dki 01 --salt 0000000000000001 --pin 1234",
        answers: &["stop 12\n"],
        status: 12,
        ..PIN_CHANGE
    },
    Run {
        name: "a sequence number that the card hasn't",
        words: "pin --config config --pan 4000000000000002 --psn 01 --dki 01 --salt 0000000000000001 --pin 1234",
        answers: &["stop 12\n"],
        status: 12,
        ..PIN_CHANGE
    },
    Run {
        name: "a broken configuration, looked for before the key",
        words: "pin --config config --pan 4000000000000028 --psn 00 --dki 01 --salt 0000000000000001 --pin 1234",
        config: LARGE_KEY_INDEX,
        answers: &["stop 2 3 1\n"],
        status: 2,
        ..PIN_CHANGE
    },
];

fn pin_keys() -> &'static [Run] {
    &PIN_KEYS
}

/// Words that are no change of a PIN, and devices that fail.
static PIN_STOPS: [Run; 10] = [
    Run {
        name: "a PIN of 3 digits",
        words: "pin --config config --pan 4000000000000002 --psn 00 --dki 01 --salt 0000000000000001 --pin 123",
        ..NO_PIN_CHANGE
    },
    Run {
        name: "a PIN of 13 digits",
        words: "pin --config config --pan 4000000000000002 --psn 00 --dki 01 --salt 0000000000000001 --pin 1234567890123",
        ..NO_PIN_CHANGE
    },
    Run {
        name: "a letter in a PIN",
        words: "pin --config config --pan 4000000000000002 --psn 00 --dki 01 --salt 0000000000000001 --pin 123A",
        ..NO_PIN_CHANGE
    },
    Run {
        name: "a sequence number of one digit",
        words: "pin --config config --pan 4000000000000002 --psn 0 --dki 01 --salt 0000000000000001 --pin 1234",
        ..NO_PIN_CHANGE
    },
    Run {
        name: "a sequence number in hexadecimal digits",
        words: "pin --config config --pan 4000000000000002 --psn 0A --dki 01 --salt 0000000000000001 --pin 1234",
        ..NO_PIN_CHANGE
    },
    Run {
        name: "an account number of 7 digits",
        words: "pin --config config --pan 4000000 --psn 00 --dki 01 --salt 0000000000000001 --pin 1234",
        ..NO_PIN_CHANGE
    },
    Run {
        name: "a salt of seven bytes",
        words: "pin --config config --pan 4000000000000002 --psn 00 --dki 01 --salt 00000000000001 --pin 1234",
        ..NO_PIN_CHANGE
    },
    Run {
        name: "an index of one digit",
        words: "pin --config config --pan 4000000000000002 --psn 00 --dki 1 --salt 0000000000000001 --pin 1234",
        ..NO_PIN_CHANGE
    },
    Run {
        name: "a configuration that fails",
        fails: [Some(0), None, None, None, None, None],
        answers: &["stop 3\n"],
        status: 3,
        ..PIN_CHANGE
    },
    Run {
        name: "a sink that fails",
        fails: [None, None, None, Some(0), None, None],
        answers: &[],
        status: 4,
        ..PIN_CHANGE
    },
];

/// Words that are no command.
const NO_PIN_CHANGE: Run = Run {
    answers: &["stop 1\n"],
    status: 1,
    ..PIN_CHANGE
};

fn pin_stops() -> &'static [Run] {
    &PIN_STOPS
}

/// Whether a run has the expected outcome. The journals are those that the run before left, unless it begins with its
/// own; then the old one has to stay as it was.
pub(crate) fn comes_to_the_expected<R: AllocGlobal + Threads + Wait + Sync>(
    rt: &R,
    run: &Run,
    journals: &mut Texts,
) -> Result<bool, Fail> {
    let alloc = rt.alloc();
    if let Some(before) = run.before {
        *journals = one_shard(alloc, run.old, before)?;
    }
    let (status, text) = run_at(rt, run, &run.fails, journals, &OpenGate)?;
    let expected = joined(alloc, run.answers)?;
    if status != run.status || text != expected {
        return Ok(false);
    }
    match (run.after, run.before) {
        (Some(after), Some(_)) => Ok(
            journals.stores == one_journal(alloc, after)?
                && journals.olds == one_journal(alloc, run.old)?,
        ),
        (Some(after), None) => Ok(journals.stores == one_journal(alloc, after)?),
        (None, _) => Ok(true),
    }
}

/// Does the runs of these groups, one after another. Fails with the name of the first that has another outcome.
fn come_to_the_expected<R: AllocGlobal + Threads + Wait + Sync>(
    rt: &R,
    groups: &[&'static [Run]],
) -> Result<(), Fail> {
    let mut journals = Texts::none(rt.alloc());
    for runs in groups {
        for run in *runs {
            if !comes_to_the_expected(rt, run, &mut journals)? {
                return Err(Fail::from(run.name));
            }
        }
    }
    Ok(())
}

// The rows are dealt to several tests, since each has a limit of time.
#[test]
fn lines_and_decisions_come_to_the_worked_rows(rt: HostRuntime) -> Result<(), Fail> {
    come_to_the_expected(&rt, &[lines(), decisions(), aes_cards()])
}

#[test]
fn scripts_come_to_the_worked_rows(rt: HostRuntime) -> Result<(), Fail> {
    come_to_the_expected(&rt, &[reports(), halts(), full_queue()])
}

#[test]
fn faults_come_to_the_worked_rows(rt: HostRuntime) -> Result<(), Fail> {
    come_to_the_expected(&rt, &[store_faults(), other_faults()])
}

#[test]
fn journals_come_to_the_worked_rows(rt: HostRuntime) -> Result<(), Fail> {
    come_to_the_expected(&rt, &[journals_found(), old_journals(), settings()])
}

#[test]
fn worlds_and_dols_come_to_the_worked_rows(rt: HostRuntime) -> Result<(), Fail> {
    come_to_the_expected(&rt, &[worlds(), dols()])
}

#[test]
fn pin_changes_come_to_the_worked_rows(rt: HostRuntime) -> Result<(), Fail> {
    come_to_the_expected(&rt, &[pin_lengths(), pin_keys(), pin_stops()])
}
