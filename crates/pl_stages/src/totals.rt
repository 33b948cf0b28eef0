//! The totals that a service keeps.

ghost use Rattle.std.specs.Prelude.{◌≡◌, ◌+◌, ◌++◌, ◌∷◌, [], List, None, IfOk, IfSome, OnOk, if◌then◌else◌, nat_lt};
ghost use Rattle.pl_stages.specs.Service.{Addition, total_of, refusal_of, unless_refused, addition_reply};
ghost use Rattle.pl_stages.specs.Totals.{KeepsTotals, kept_total};

use crate::limits::{MAX_KEYS, MAX_TOTAL};
use pl_event::{Fault, Key, Reply};
use std::alloc::{AllocError, Global};
use std::collections::HashMap;

/// The total of each key that is held.
#[derive(Debug, Drop)]
pub(crate) struct Totals {
    alloc: Global,
    /// The names are those of keys.
    by_name: HashMap<Vec<u8>, u64>,
}

impl Totals {
    /// Totals that hold no key.
    pub(crate) fn new(alloc: Global) -> Self
        ensures { KeepsTotals result [] }
    {
        Totals {
            alloc,
            by_name: HashMap::new(alloc),
        }
    }

    /// The total of a key, 0 where it is not held.
    pub(crate) fn get(&self, key: &Key) -> u64
        ensures { (additions : List Addition) → KeepsTotals self.now additions → result ≡ total_of key.now additions }
    {
        self.found(key).unwrap_or(0)
    }

    /// Adds to the total of a key, and replies the new total or why it is refused.
    pub(crate) fn add(&mut self, key: &Key, number: u32) -> Result<Reply, AllocError>
        ensures reply { IfOk result (λ reply. (additions : List Addition) → KeepsTotals self.old additions
            → reply ≡ addition_reply key.now number additions) }
        ensures kept { OnOk result ((additions : List Addition) → KeepsTotals self.old additions
            → KeepsTotals self.new (additions ++ unless_refused (refusal_of key.now number additions) (record { key = key.now; number = number } ∷ []))) }
    {
        match self.add_to_held(key, number) {
            Some(reply) => Ok(reply),
            None => self.add_first(key, number),
        }
    }

    /// Adds to the total of a key where it is held, which takes no memory. None, and nothing has changed, where it is not.
    pub(crate) fn add_to_held(&mut self, key: &Key, number: u32) -> Option<Reply>
        ensures reply { IfSome result (λ reply. (additions : List Addition) → KeepsTotals self.old additions
            → reply ≡ addition_reply key.now number additions) }
        ensures kept { IfSome result (λ reply. (additions : List Addition) → KeepsTotals self.old additions
            → KeepsTotals self.new (additions ++ unless_refused (refusal_of key.now number additions) (record { key = key.now; number = number } ∷ []))) }
        ensures none { result ≡ None → (self.new ≡ self.old) × (kept_total key.now self.old ≡ None) }
    {
        if let Some(held) = self.by_name.get_mut(key.as_slice()) {
            return Some(raise(held, number));
        }
        None
    }

    /// Adds to the total of a key that is not held.
    #[inline(never)]
    fn add_first(&mut self, key: &Key, number: u32) -> Result<Reply, AllocError>
        requires { kept_total key.now self.old ≡ None }
        ensures reply { IfOk result (λ reply. (additions : List Addition) → KeepsTotals self.old additions
            → reply ≡ addition_reply key.now number additions) }
        ensures kept { OnOk result ((additions : List Addition) → KeepsTotals self.old additions
            → KeepsTotals self.new (additions ++ unless_refused (refusal_of key.now number additions) (record { key = key.now; number = number } ∷ []))) }
    {
        if self.by_name.len() >= MAX_KEYS {
            return Ok(Reply::Error(Fault::Full));
        }
        let total = u64::from(number);
        let name = Vec::from_slice(self.alloc, key.as_slice())?;
        self.by_name.insert(name, total)?;
        Ok(Reply::Total(total))
    }

    /// The total of a key, or None where it is not held.
    fn found(&self, key: &Key) -> Option<u64>
        ensures { result ≡ kept_total key.now self.now }
    {
        self.by_name.get(key.as_slice()).copied()
    }
}

/// Adds to a total, unless it would be above [`MAX_TOTAL`], and replies the new total or why it is refused.
fn raise(held: &mut u64, number: u32) -> Reply
    ensures total { held.new ≡ (if nat_lt MAX_TOTAL (held.old + number) then held.old else held.old + number) }
    ensures reply { result ≡ (if nat_lt MAX_TOTAL (held.old + number) then Reply.Error Fault.Range else Reply.Total (held.old + number)) }
{
    let total = held.saturating_add(u64::from(number));
    if total > MAX_TOTAL {
        return Reply::Error(Fault::Range);
    }
    *held = total;
    Reply::Total(total)
}
