//! What happens at a step: the fates, each a list of moves.
ghost use Rattle.std.specs.Prelude.{◌≡◌, ◌<◌};
ghost use Rattle.world_play.specs.Moves.{moves_of};

/// One move of a step, with the step's card, its host, and the network between them.
#[derive(Clone, Copy)]
pub enum Move {
    /// The step's command with this number is queued for the card.
    Queue(u8),

    /// The card is tapped: its request is in hand.
    Tap,

    /// The line of the request in hand is answered.
    Ask,

    /// The line of the request in hand is answered, with the last bit of its cryptogram changed.
    AskSpoiled,

    /// The request in hand is held back.
    Hold,

    /// The request that is held back is in hand; nothing is, if none is held.
    TakeHeld,

    /// The last reply arrives: the card gets the issuer's answer and, if it accepts that, all commands.
    Hand,

    /// The last reply arrives, with the first of its commands alone.
    HandFirst,

    /// The last reply arrives, with the last bit of the first byte of the issuer's answer changed.
    HandSpoiled,
}

const QUEUED_FOR_AND_LOST: [Move; 5] = [
    Move::Queue(0),
    Move::Queue(1),
    Move::Queue(2),
    Move::Tap,
    Move::Ask,
];

const REQUEST_LOST: [Move; 1] = [Move::Tap];

const CUT_SHORT: [Move; 3] = [Move::Tap, Move::Ask, Move::HandFirst];

const ASKED_AGAIN: [Move; 4] = [Move::Tap, Move::Ask, Move::Ask, Move::Hand];

const HELD_BACK: [Move; 2] = [Move::Tap, Move::Hold];

const OVERTAKES_THE_HELD: [Move; 6] = [
    Move::Tap,
    Move::Ask,
    Move::Hand,
    Move::TakeHeld,
    Move::Ask,
    Move::Hand,
];

const ANSWER_SPOILED: [Move; 3] = [Move::Tap, Move::Ask, Move::HandSpoiled];

const REQUEST_SPOILED: [Move; 4] = [Move::Tap, Move::AskSpoiled, Move::Ask, Move::Hand];

/// The moves of a fate, which is 0 to 7.
pub(crate) fn moves_of(fate: u8) -> &'static [Move]
    requires { fate < 8 }
    ensures { result.now ≡ moves_of fate }
{
    match fate {
        0 => &QUEUED_FOR_AND_LOST,
        1 => &REQUEST_LOST,
        2 => &CUT_SHORT,
        3 => &ASKED_AGAIN,
        4 => &HELD_BACK,
        5 => &OVERTAKES_THE_HELD,
        6 => &ANSWER_SPOILED,
        _ => &REQUEST_SPOILED,
    }
}
