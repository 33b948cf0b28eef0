//! The names of totals.

ghost use Rattle.std.specs.Prelude.{◌≡◌, ◌||◌, ◌&&◌, length, IsSome, IfSome, IsTrue, nat_eq, nat_le, is_some};
ghost use Rattle.std.specs.List.{list_all};
ghost use Rattle.std.specs.Cmp;
ghost use Rattle.std.specs.Cmp.Lexicographic.{pointwise, nat_list_eq_equiv};
ghost use Rattle.pl_event.specs.Keys.{is_key, is_key_byte};

use arrayvec::ArrayVec;
use std::alloc::AllocError;
use std::marker::Model;

/// The longest name of a key, in bytes. The shortest has one byte.
pub const MAX_KEY_LENGTH: usize = 16;

/// The name of a total: 1 to [`MAX_KEY_LENGTH`] bytes, each `a` to `z` or `0` to `9`. Contracts see it as the list of
/// its bytes.
#[derive(Debug, Drop)]
pub struct Key {
    name: ArrayVec<u8, MAX_KEY_LENGTH>,
}

impl Model for Key {
    ghost use Rattle.std.specs.Prelude.{List, ℕ, IsTrue};
    ghost use Rattle.pl_event.specs.Keys.{is_key};

    ghost Value = { List ℕ };

    ghost view = { λ k. k.name.items };

    ghost invariant = { λ k. IsTrue (is_key k.name.items) };
}

impl Key {
    /// The key of this name, or None where no key may have it. It takes no memory.
    pub fn new(name: &[u8]) -> Option<Self>
        ensures found { is_some result ≡ is_key name.now }
        ensures name { IfSome result (λ key. key ≡ name.now) }
    {
        let mut kept = ArrayVec::new();
        if kept.try_extend_from_slice(name).is_ok() && is_name(name) {
            Some(Key { name: kept })
        } else {
            None
        }
    }

    /// The bytes of its name, lent.
    pub fn as_slice(&self) -> &[u8]
        ensures name { result.now ≡ self.now }
        ensures key { IsTrue (is_key self.now) }
    {
        self.name.as_slice()
    }
}

/// Whether a name may have this byte.
fn is_name_byte(byte: u8) -> bool
    ensures { result ≡ is_key_byte byte }
{
    byte.is_ascii_lowercase() || byte.is_ascii_digit()
}

/// Whether a name may have each of these bytes.
fn are_name_bytes(name: &[u8]) -> bool
    ensures { result ≡ list_all is_key_byte name.now }
{
    name.iter().all(|byte| is_name_byte(*byte))
}

/// Whether a key may have this name.
fn is_name(name: &[u8]) -> bool
    ensures { result ≡ is_key name.now }
{
    !name.is_empty() && name.len() <= MAX_KEY_LENGTH && are_name_bytes(name)
}

impl Clone for Key {
    ghost is_clone = { λ a b. b ≡ a };

    fn clone(&self) -> Result<Key, AllocError> {
        Ok(Key {
            name: self.name.clone()?,
        })
    }
}

impl PartialEq for Key {
    ghost eq = { pointwise nat_eq };

    ghost laws = { Cmp.partial_equiv_from_equiv nat_list_eq_equiv };

    fn eq(&self, other: &Key) -> bool {
        self.as_slice() == other.as_slice()
    }
}

impl Eq for Key {
    ghost laws = { nat_list_eq_equiv };
}
