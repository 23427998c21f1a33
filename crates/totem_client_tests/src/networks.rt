//! Books and networks: totem_books and totem_net.
use std::alloc::{AllocError, Global};
pub use totem_books::{
    Blank, Book, BookFault, BookName, Call, CloseFault, CloseRefused, ClosedBook, Reply, Seat,
    SharedBook, Stub, close,
};
use totem_ids::ProcId;
pub use totem_net::{
    Fate, Fates, Plan, Start, Switch, Unwatched, copies_wait_their_time, fate, no_copy_is_lost,
};

pub fn copies(alloc: Global, stub: &Stub, call: &Call) -> Result<(), AllocError> {
    let _ = stub.try_clone(alloc)?;
    let _ = stub.reply.try_clone(alloc)?;
    let _ = call.try_clone(alloc)?;
    Ok(())
}

pub fn copy(fates: &Fates) -> Result<Fates, AllocError> {
    fates.try_clone()
}

pub fn of_networks() {
    copies_wait_their_time();
    no_copy_is_lost();
}

/// A start that needs nothing.
pub struct Begins;

impl Start for Begins {
    fn begun(&self, _node: ProcId) {}
}
