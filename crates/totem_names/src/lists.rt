//! Lists with a rule for their elements: how many there are, whether they are ascending, whether two are the same, and copies.
ghost use Rattle.std.specs.Prelude.{◌≡◌, ◌↔◌, ℕ, ◌<◌, ◌≤◌, length, All, AllPairs, IsTrue, IfSome, IfNone, IfOk, MatchResult, []};
ghost use Rattle.totem_names.specs.Lists.{Anyhow, FallsAt, IsListOf, Refuses};

use crate::refused::{ListFault, Refused};
use std::alloc::{AllocError, Global};

/// A type whose values are elements of lists.
pub trait Listed {
    /// What holds for every value because its type keeps its rule.
    ghost keeps: { Self → Type 0 };

    /// Does nothing. Its contract says that the value keeps its rule.
    fn keeps_its_rule(&self)
        ensures { keeps self.now };

    /// Returns whether the two are the same: `==` in a form that contracts can use.
    fn is(&self, other: &Self) -> bool
        ensures { IsTrue result ↔ (self.now ≡ other.now) };

    fn try_clone(&self, alloc: Global) -> Result<Self, AllocError>
        ensures { IfOk result (λ x. x ≡ self.now) };
}

/// A type whose values have a key by which lists of them are ordered.
pub trait Keyed: Listed {
    ghost key_of: { Self → ℕ };

    fn key(&self) -> u32
        ensures value { result ≡ key_of self.now }
        ensures positive { 0 < result };
}

/// Returns the index of the first element whose key is not above the one before it, or `None` if the keys are strictly ascending.
fn first_fall<T: Keyed>(list: &[T]) -> Option<usize>
    ensures found { IfSome result (λ at. FallsAt (λ a b. T.key_of a < T.key_of b) list.now at) }
    ensures rising { IfNone result (AllPairs (λ a b. T.key_of a < T.key_of b) list.now) }
{
    let mut last = 0u32;
    for (at, x) in list.iter().enumerate() {
        let key = x.key();
        if key <= last {
            return Some(at);
        }
        last = key;
    }
    None
}

/// Each value keeps its own rule, so a list of values does.
fn keep_their_rules<T: Listed>(list: &[T])
    ensures { All T.keeps list.now }
{
    for x in list {
        x.keeps_its_rule();
    }
}

/// Returns `None` if the list has `least` to `most` elements, and otherwise the first rule that it breaks.
fn bounds_fault<T: Listed>(least: usize, most: usize, list: &[T]) -> Option<ListFault>
    requires { least ≤ 1 }
    ensures broken { IfSome result (λ fault. Refuses least most Anyhow list.now fault) }
    ensures kept { IfNone result (IsListOf least most Anyhow T.keeps list.now) }
{
    if list.len() < least {
        return Some(ListFault::Empty);
    }
    if most < list.len() {
        return Some(ListFault::TooMany(most));
    }
    keep_their_rules(list);
    None
}

/// Returns `None` if the list has `least` to `most` elements and they are strictly ascending, and otherwise the first rule that it
/// breaks.
pub fn rising_fault<T: Keyed>(least: usize, most: usize, list: &[T]) -> Option<ListFault>
    requires { least ≤ 1 }
    ensures broken { IfSome result (λ fault. Refuses least most (λ a b. T.key_of a < T.key_of b) list.now fault) }
    ensures kept { IfNone result (IsListOf least most (λ a b. T.key_of a < T.key_of b) T.keeps list.now) }
{
    if let Some(fault) = bounds_fault(least, most, list) {
        return Some(fault);
    }
    let at = first_fall(list)?;
    Some(ListFault::NotRising(at))
}

/// Returns the list if it has `least` to `most` elements. Otherwise refuses it, with the first rule that it breaks.
pub fn bounded<T: Listed>(
    least: usize,
    most: usize,
    list: Vec<T>,
) -> Result<Vec<T>, Refused<Vec<T>>>
    requires { least ≤ 1 }
    ensures { MatchResult result (λ v. (v.items ≡ list.items) × IsListOf least most Anyhow T.keeps list.items)
        (λ r. (r.value.items ≡ list.items) × Refuses least most Anyhow list.items r.fault) }
{
    match bounds_fault(least, most, &list) {
        None => Ok(list),
        Some(fault) => Err(Refused { fault, value: list }),
    }
}

/// Returns the list if it has `least` to `most` elements and they are strictly ascending. Otherwise refuses it, with the first rule
/// that it breaks.
pub fn rising<T: Keyed>(least: usize, most: usize, list: Vec<T>) -> Result<Vec<T>, Refused<Vec<T>>>
    requires { least ≤ 1 }
    ensures { MatchResult result (λ v. (v.items ≡ list.items) × IsListOf least most (λ a b. T.key_of a < T.key_of b) T.keeps list.items)
        (λ r. (r.value.items ≡ list.items) × Refuses least most (λ a b. T.key_of a < T.key_of b) list.items r.fault) }
{
    match rising_fault(least, most, &list) {
        None => Ok(list),
        Some(fault) => Err(Refused { fault, value: list }),
    }
}

/// Returns whether the two lists have the same elements in the same order.
pub fn are_same<T: Listed>(these: &[T], those: &[T]) -> bool
    ensures { IsTrue result ↔ (these.now ≡ those.now) }
{
    if these.len() != those.len() {
        return false;
    }
    for i in 0..these.len() {
        if !these[i].is(&those[i]) {
            return false;
        }
    }
    true
}

/// Returns a copy of the list.
pub fn copied<T: Listed + Drop>(alloc: Global, list: &[T]) -> Result<Vec<T>, AllocError>
    ensures { IfOk result (λ v. v.items ≡ list.now) }
{
    let mut copy = Vec::with_capacity(alloc, list.len())?;
    for x in list {
        copy.push(x.try_clone(alloc)?)?;
    }
    Ok(copy)
}
