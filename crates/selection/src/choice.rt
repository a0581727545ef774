// A selection that a program picks as it runs.
ghost use Rattle.selection.specs.Sets.{in_choice};

use crate::select::{Flags, Roots, Selection};

// Every leaf, flagged leaves, or the leaves below flagged children of the root.
#[derive(Clone, Copy)]
pub enum Choice<'c, 'f> {
    All,
    Leaves(Flags<'f>),
    Roots(Roots<'c, 'f>),
}

impl<'c, 'f> Selection for Choice<'c, 'f> {
    ghost chosen = { in_choice };

    fn contains(&self, leaf: usize) -> bool {
        match self {
            Choice::All => true,
            Choice::Leaves(flags) => flags.contains(leaf),
            Choice::Roots(roots) => roots.contains(leaf),
        }
    }
}
