//! A value that keeps a list of entries, and what a turn does to it.
ghost use Rattle.std.specs.Prelude.{◌≡◌, ℕ, List};
ghost use Rattle.cd_gate.specs.Histories.{GrewByTurn};

/// A value that keeps a list of entries, each with the number of the worker who made it. It began with some start, which
/// is plain data and never changes.
pub trait Journaled {
    /// What a turn may add.
    type Entry;

    /// What the value began with.
    type Start;

    /// The worker's number of an entry.
    ghost number: { Self.Entry → ℕ };

    /// The entries so far, the oldest first.
    ghost entries: { Self → List Self.Entry };

    /// What the value began with.
    ghost start: { Self → Self.Start };
}

/// What one turn does to the value: it adds at most one entry, and takes none away.
pub trait Deed<T: Journaled> {
    /// What the one who made the turn is told.
    type Answer;

    /// The worker's number of the entry that it adds.
    ghost by: { Self → ℕ };

    /// When it may be done: a condition on the deed, the start and the entries before.
    ghost may: { Self → T.Start → List T.Entry → Type 0 };

    /// What it does: a relation between the deed, the start, the entries before, the answer and the entries after.
    ghost did: { Self → T.Start → List T.Entry → Self.Answer → List T.Entry → Type 0 };

    /// Does it.
    fn act(self, value: &mut T) -> Self::Answer
        requires may { may self (T.start value.old) (T.entries value.old) }
        ensures adds { GrewByTurn T.number (by self) (T.entries value.old) (T.entries value.new) }
        ensures start { T.start value.new ≡ T.start value.old }
        ensures did { did self (T.start value.old) (T.entries value.old) result (T.entries value.new) };
}
