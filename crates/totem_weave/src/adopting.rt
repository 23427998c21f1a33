//! The laws of adopting, each the contract of a function that does nothing.
ghost use Rattle.totem_weave.specs.Adopting.{OnlyAdoptsLast, BooksAdoptLast};

/// A node adopts only after its last step on that ring: from the input on at which it adopts a
/// message of its installed ring, that input included, it takes no step on the ring, whatever the inputs are.
pub fn only_adopts_last()
    ensures { OnlyAdoptsLast }
{}

/// The calls of a closed book say the same: from the call on at which its node adopts a message, that call included, no reply of the
/// book reports a step on the message's ring.
pub fn books_adopt_last()
    ensures { BooksAdoptLast }
{}
