//! What was recorded under each key: one value, or several.
ghost use Rattle.std.specs.Prelude.{◌≡◌, ◌↔◌, Some, IsTrue, OnOk, OnErr};
ghost use Rattle.std.specs.BTreeMap.{get, IsEmpty, IsUnchanged};
ghost use Rattle.totem_pass_ab.specs.Met.{IsMet};

use std::alloc::{AllocError, Global};
use std::collections::BTreeMap;

/// Values that can be compared in contracts.
pub trait Same {
    fn is_same(&self, other: &Self) -> bool
        ensures { IsTrue result ↔ (self.now ≡ other.now) };
}

/// The value that was recorded under each key, or `None` if there were several.
#[derive(Drop)]
pub struct Met<K: Ord, V> {
    pub values: BTreeMap<K, Option<V>>,
}

impl<K: Ord + Drop, V: Same + Drop> Met<K, V> {
    pub fn new(alloc: Global) -> Met<K, V>
        ensures { IsEmpty result.values }
    {
        Met {
            values: BTreeMap::new(alloc),
        }
    }

    /// Records this value under this key. If memory is refused, nothing changes.
    pub fn meet(&mut self, key: K, value: V) -> Result<(), AllocError>
        ensures met { OnOk result (IsMet K.cmp self.old.values self.new.values key value) }
        ensures err { OnErr result (IsUnchanged self.old.values self.new.values) }
    {
        let met = match self.values.get(&key) {
            None => Some(value),
            Some(None) => return Ok(()),
            Some(Some(first)) => {
                if first.is_same(&value) {
                    return Ok(());
                }
                None
            }
        };
        self.values.insert(key, met)?;
        Ok(())
    }

    /// Returns whether this value and no other was recorded under this key.
    pub fn is_only(&self, key: &K, value: &V) -> bool
        ensures { IsTrue result ↔ (get K.cmp self.now.values key.now ≡ Some (Some value.now)) }
    {
        match self.values.get(key) {
            Some(Some(only)) => only.is_same(value),
            _ => false,
        }
    }
}
