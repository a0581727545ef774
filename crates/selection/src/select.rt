// Selections: what one is, and the kinds of it.
ghost use Rattle.std.specs.Prelude.{◌≡◌, ℕ, Bool, true, false, ◌⊎◌, Decides};
ghost use Rattle.selection.specs.Sets.{in_flags, in_roots, union, intersection};

use columns::Column;

// A set of leaf numbers. It refuses no number and alters nothing; whoever writes one shows that each answer is the set's.
pub trait Selection {
    // The set: a test on every number.
    ghost chosen: { Self → ℕ → Bool };

    // Whether the leaf with this number is in the set.
    fn contains(&self, leaf: usize) -> bool
        ensures answer { result ≡ chosen self.now leaf };
}

// Every leaf.
#[derive(Clone, Copy)]
pub struct All;

impl Selection for All {
    ghost chosen = { λ _ _. true };

    fn contains(&self, _leaf: usize) -> bool {
        true
    }
}

// The leaves whose flag is set; none past the flags.
#[derive(Clone, Copy)]
pub struct Flags<'a>(pub &'a [bool]);

impl<'a> Selection for Flags<'a> {
    ghost chosen = { λ s. in_flags s.0.now };

    fn contains(&self, leaf: usize) -> bool {
        self.0.get(leaf).copied().unwrap_or(false)
    }
}

// The leaves below a flagged child of the root; none past the columns.
#[derive(Clone, Copy)]
pub struct Roots<'c, 'f> {
    // the columns of a listing, in order
    pub columns: &'c [Column],
    // a flag for each child of the root; one past them is not flagged
    pub flags: &'f [bool],
}

impl<'c, 'f> Selection for Roots<'c, 'f> {
    ghost chosen = { λ s. in_roots s.columns.now s.flags.now };

    fn contains(&self, leaf: usize) -> bool {
        self.columns
            .get(leaf)
            .is_some_and(|column| Flags(self.flags).contains(column.root))
    }
}

// The leaves of one selection or the other. `either` says so of each number.
// (`Both` differs in the operation alone, but a type over either operation would hide `||` and `&&` in a parameter.)
#[derive(Drop)]
pub struct Either<P, Q>(pub P, pub Q);

impl<P: Selection, Q: Selection> Selection for Either<P, Q> {
    ghost chosen = { λ s. union (P.Selection.chosen s.0) (Q.Selection.chosen s.1) };

    fn contains(&self, leaf: usize) -> bool
        ensures answer { result ≡ union (P.Selection.chosen self.now.0) (Q.Selection.chosen self.now.1) leaf }
        ensures either { Decides result ((P.Selection.chosen self.now.0 leaf ≡ true) ⊎ (Q.Selection.chosen self.now.1 leaf ≡ true)) }
    {
        self.0.contains(leaf) || self.1.contains(leaf)
    }
}

// The leaves of both selections. `both` says so of each number.
#[derive(Drop)]
pub struct Both<P, Q>(pub P, pub Q);

impl<P: Selection, Q: Selection> Selection for Both<P, Q> {
    ghost chosen = { λ s. intersection (P.Selection.chosen s.0) (Q.Selection.chosen s.1) };

    fn contains(&self, leaf: usize) -> bool
        ensures answer { result ≡ intersection (P.Selection.chosen self.now.0) (Q.Selection.chosen self.now.1) leaf }
        ensures both { Decides result ((P.Selection.chosen self.now.0 leaf ≡ true) × (Q.Selection.chosen self.now.1 leaf ≡ true)) }
    {
        self.0.contains(leaf) && self.1.contains(leaf)
    }
}
