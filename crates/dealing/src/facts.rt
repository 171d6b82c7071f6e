//! What holds of every dealing, for every kind, batch, choices and share.

ghost use Rattle.dealing.specs.Facts.{EachMoveStandsOnce, QueuesNeverConflict, DealingsAreSound};

use yard::kind::Kind;

/// Each move of a batch stands just once in the line-up.
pub fn each_move_stands_once<K: Kind>()
    ensures { EachMoveStandsOnce K.Kind.rules }
{}

/// Two moves of different queues never both name a cell that one of them writes.
pub fn queues_never_conflict<K: Kind>()
    ensures { QueuesNeverConflict K.Kind.rules }
{}

/// Each move of a batch stands just once in the line-up and in just one lane, and within a lane moves stand in batch order.
/// Queues are numbered as they were made, and none is empty. Two moves of different queues never both name a cell that one of them writes.
pub fn dealings_are_sound<K: Kind>()
    ensures { DealingsAreSound K.Kind.rules }
{}
