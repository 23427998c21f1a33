//! Compares values in a form that contracts can use.
ghost use Rattle.std.specs.Prelude.{◌≡◌, ◌↔◌, IsTrue};

mod packets;
mod steps;

/// Values that can be compared in contracts, as by `==`.
pub trait Same {
    fn same(&self, other: &Self) -> bool
        ensures { IsTrue result ↔ (self.now ≡ other.now) };
}

/// Returns whether two lists have the same items in the same order.
pub fn same_items<T: Same>(these: &[T], those: &[T]) -> bool
    ensures { IsTrue result ↔ (these.now ≡ those.now) }
{
    if these.len() != those.len() {
        return false;
    }
    for i in 0..these.len() {
        if !these[i].same(&those[i]) {
            return false;
        }
    }
    true
}

impl<A: Same, B: Same> Same for (A, B) {
    fn same(&self, other: &(A, B)) -> bool {
        self.0.same(&other.0) && self.1.same(&other.1)
    }
}
