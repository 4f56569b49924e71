//! What the stack and the events keep of dispatches, against what the records say, and how the
//! pieces of one event follow one another.

ghost use Rattle.er_pieces.specs.Pieces.{PiecesInOrder, PiecesReachLatest};
ghost use Rattle.er_pieces.specs.Stack.{BackEndsClose, BackGoesOn, KeptAsRead, KeptHaveBegun, OneDispatchANumber, OpenHaveBegun, OpenIsKept, StackIsAsRead};

/// Where naming refuses no record, the stack says of a dispatch what the records say: whether its
/// close has begun, and whether it is inline.
#[tactic(auto, using(crate::proofs::ClosingLemmas::stack_is_as_read))]
pub fn stack_is_as_read()
    ensures { StackIsAsRead }
{}

/// The begin that a dispatch names, on the stack or in an event, is the action that the record of
/// its number began.
#[tactic(auto, using(crate::proofs::KeptLemmas::open_have_begun))]
pub fn begins_are_as_read()
    ensures on_the_stack { OpenHaveBegun }
    ensures in_events { KeptHaveBegun }
{}

/// Begin, handlers and close of one number keep one dispatch, which is the one on the stack, and
/// its number is that of their records.
#[tactic(auto, using(crate::proofs::NamedLemmas::dispatch_kept))]
pub fn one_dispatch_is_kept()
    ensures one { OneDispatchANumber }
    ensures on_the_stack { OpenIsKept }
    ensures read { KeptAsRead }
{}

/// `back` comes after a piece of the close, and goes on with the event of the action
/// before the begin.
#[tactic(auto, using(crate::proofs::BackLemmas::goes_back))]
pub fn back_goes_on()
    ensures event { BackGoesOn }
    ensures close { BackEndsClose }
{}

/// The pieces of an event are joined in recorded order, and each has a path to the latest.
#[tactic(auto, using(crate::proofs::PieceLemmas::in_order))]
pub fn pieces_are_in_order()
    ensures order { PiecesInOrder }
    ensures latest { PiecesReachLatest }
{}
