//! Elements that contracts see as a list.

ghost use Rattle.std.specs.Prelude.{◌≡◌, ◌==◌, ◌++◌, ◌∷◌, [], length, OnOk, IfOk, IfErr, if◌then◌else◌, is_ok};

use std::alloc::{AllocError, AllocFailed, Global};
use std::marker::Model;

/// Elements, in order. Contracts see them as a list.
#[derive(Debug, Drop)]
pub struct Sequence<T> {
    elements: Vec<T>,
}

impl<T> Model for Sequence<T> {
    ghost use Rattle.std.specs.Prelude.{List};

    ghost Value = { List T };

    ghost view = { λ s. s.elements.items };
}

impl<T> Sequence<T> {
    /// An empty sequence. It takes no memory.
    pub fn new(alloc: Global) -> Self
        ensures { result ≡ [] }
    {
        Sequence {
            elements: Vec::new(alloc),
        }
    }

    /// Takes a `Vec` over. It takes no memory.
    pub fn from_vec(elements: Vec<T>) -> Self
        ensures { result ≡ elements.items }
    {
        Sequence { elements }
    }

    /// Gives the `Vec` back. It takes no memory.
    pub fn into_vec(self) -> Vec<T>
        ensures { result.items ≡ self }
    {
        let Sequence { elements } = self;
        elements
    }

    /// Adds an element at the end. An `Err` is out of memory: it hands the element back, and changes nothing.
    pub fn push(&mut self, element: T) -> Result<(), AllocFailed<T>>
        ensures items { self.new ≡ (if is_ok result then self.old ++ element ∷ [] else self.old) }
        ensures value_returned { IfErr result (λ refused. refused.value ≡ element) }
    {
        self.elements.push(element)
    }

    /// The elements, lent.
    pub fn as_slice(&self) -> &[T]
        ensures { result.now ≡ self.now }
    {
        self.elements.as_slice()
    }

    /// How many elements there are.
    pub fn len(&self) -> usize
        ensures { result ≡ length self.now }
    {
        self.elements.len()
    }

    /// Whether there is no element.
    pub fn is_empty(&self) -> bool
        ensures { result ≡ (length self.now == 0) }
    {
        self.elements.is_empty()
    }
}

impl<T: Copy> Sequence<T> {
    /// A copy of some elements. An `Err` is out of memory.
    pub fn from_slice(alloc: Global, elements: &[T]) -> Result<Self, AllocError>
        ensures { IfOk result (λ copy. copy ≡ elements.now) }
    {
        Ok(Sequence {
            elements: Vec::from_slice(alloc, elements)?,
        })
    }
}
