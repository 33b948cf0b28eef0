//! The targets for which something waits, by age.

ghost use Rattle.std.specs.Prelude.{◌≡◌, ℕ, Bool, ◌<◌, ◌≤◌, ◌==◌, [], length, find, position, All, IfOk, Option, Some, None, nat_eq, nat_lt, slice_get, true, false};
ghost use Rattle.std.specs.List.Sorted.{IsNonDecreasingBy};
ghost use Rattle.std.specs.Option.{option_map_or};
ghost use Rattle.std.specs.Map.{keys_of, update};
ghost use Rattle.pl_context.specs.Fronts.{age_for};

use std::alloc::{AllocError, Global};
use std::marker::Model;

/// The targets for which something waits, each with the age of its front: the oldest front first.
///
/// A place for each target is taken at the start, so a change takes no memory.
#[derive(Debug, Drop)]
pub(crate) struct Fronts {
    ages: Vec<(usize, u64)>,
}

impl Model for Fronts {
    ghost use Rattle.std.specs.Prelude.{vec_capacity};
    ghost use Rattle.pl_context.specs.Fronts.{FrontsView, IsFronts};

    ghost Value = { FrontsView };

    ghost view = { λ f. record { ages = f.ages.items; places = vec_capacity f.ages } };

    ghost invariant = { λ f. IsFronts f.ages.items (vec_capacity f.ages) };
}

impl Fronts {
    /// Nothing waits for any of so many targets.
    pub(crate) fn new(alloc: Global, targets: usize) -> Result<Self, AllocError>
        ensures empty { IfOk result (λ fronts. fronts.ages ≡ []) }
        ensures places { IfOk result (λ fronts. fronts.places ≡ targets) }
    {
        Ok(Fronts {
            ages: Vec::with_capacity(alloc, targets)?,
        })
    }

    /// Whether nothing waits.
    pub(crate) fn is_empty(&self) -> bool
        ensures { result ≡ (length self.now.ages == 0) }
    {
        self.ages.is_empty()
    }

    /// The open target with the oldest front. None where nothing waits for an open one.
    pub(crate) fn oldest<F: Fn(usize) -> bool>(&self, is_open: F) -> Option<usize>
        requires { All (λ target. F.pre is_open target) (keys_of self.now.ages) }
        ensures first { (opens : ℕ → Bool) → All (λ target. (answer : Bool) → F.post is_open target answer → answer ≡ opens target) (keys_of self.now.ages)
            → result ≡ find opens (keys_of self.now.ages) }
        ensures order { IsNonDecreasingBy (λ front. front.1) self.now.ages }
    {
        for (target, _) in &self.ages {
            if is_open(*target) {
                return Some(*target);
            }
        }
        None
    }

    /// The front for a target had one age, and has another now; None where nothing waits for it.
    #[inline(always)]
    pub(crate) fn set(&mut self, target: usize, was: Option<u64>, age: Option<u64>)
        requires there { target < self.old.places }
        requires was { age_for self.old target ≡ was }
        ensures ages { (y : ℕ) → age_for self.new y ≡ update nat_eq (age_for self.old) target age y }
        ensures places { self.old.places ≤ self.new.places }
    {
        if was == age || (was.is_some() && self.renew(target, age)) {
            return;
        }
        self.replace(target, was, age);
    }

    /// The same, by taking it out and putting it where its age belongs.
    #[inline(never)]
    fn replace(&mut self, target: usize, was: Option<u64>, age: Option<u64>)
        requires there { target < self.old.places }
        requires was { age_for self.old target ≡ was }
        ensures ages { (y : ℕ) → age_for self.new y ≡ update nat_eq (age_for self.old) target age y }
        ensures places { self.old.places ≤ self.new.places }
    {
        if was.is_some() {
            self.remove(target);
        }
        if let Some(age) = age {
            self.insert(target, age);
        }
    }

    /// Gives a target a greater age in its place, where that is below the age of the next. False where it does not, and
    /// nothing has changed.
    fn renew(&mut self, target: usize, age: Option<u64>) -> bool
        ensures ages { result ≡ true → (y : ℕ) → age_for self.new y ≡ update nat_eq (age_for self.old) target age y }
        ensures same { result ≡ false → self.new ≡ self.old }
        ensures places { self.old.places ≤ self.new.places }
    {
        let Some(age) = age else {
            return false;
        };
        let Some(index) = self.index_of(target) else {
            return false;
        };
        if age <= self.ages[index].1 || !self.is_before(age, index + 1) {
            return false;
        }
        self.ages[index].1 = age;
        true
    }

    /// Whether an age is below that at an index, where there is one.
    fn is_before(&self, age: u64, index: usize) -> bool
        ensures { result ≡ option_map_or (λ front. nat_lt age front.1) (slice_get self.now.ages index) true }
    {
        match self.ages.get(index) {
            None => true,
            Some(front) => age < front.1,
        }
    }

    /// Takes a target out, if it is there.
    fn remove(&mut self, target: usize)
        ensures ages { (y : ℕ) → age_for self.new y ≡ update nat_eq (age_for self.old) target None y }
        ensures places { self.old.places ≤ self.new.places }
    {
        if let Some(index) = self.index_of(target) {
            self.ages.remove(index);
        }
    }

    /// The index of a target.
    fn index_of(&self, target: usize) -> Option<usize>
        ensures { result ≡ position (λ front. target == front.0) self.now.ages }
    {
        self.ages.iter().position(|front| target == front.0)
    }

    /// Puts a target that is not there behind those whose front is older.
    fn insert(&mut self, target: usize, age: u64)
        requires there { target < self.old.places }
        requires new { age_for self.old target ≡ None }
        ensures ages { (y : ℕ) → age_for self.new y ≡ update nat_eq (age_for self.old) target (Some age) y }
        ensures places { self.old.places ≤ self.new.places }
    {
        let index = self.ages.as_slice().partition_point(|front| front.1 < age);
        // There is room for it, so this does not fail.
        let _ = self.ages.insert(index, (target, age));
    }
}
