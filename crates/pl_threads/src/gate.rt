//! What is entered at each turn.

ghost use Rattle.std.specs.Prelude.{ℕ};

/// Is entered at each turn of each executor. It is entered first; what is proved is that by the end of the turn it was.
pub trait Gate {
    /// It was entered at this turn of this executor.
    ghost was_entered: { Self → ℕ → ℕ → Type 0 } = { λ g executor turn. Unit {0} };

    /// A turn of an executor begins. The number 2^64 - 1 stays once it is reached.
    fn enter(&self, executor: u16, turn: u64)
        ensures { was_entered self.now executor turn };
}
