// Checking lent memory: nothing is taken on trust, so every call on a finished schema looks at its memory first.
ghost use Rattle.std.specs.Prelude.{◌≡◌, true, List, Decides};
ghost use Rattle.schema.specs.Rows.{finished_kept};
ghost use Rattle.schema.specs.Posts.{memory_kept, IsMemory};
ghost use Rattle.schema.specs.Words.{Event};
ghost use Rattle.schema.specs.Reach.{Reached, whole};

use crate::draft::Schema;
use crate::element::Element;
use crate::rows::{keeps_rows, keeps_sizes};
use tree::FlatTree;

// Whether the rows are a finished schema: by their sizes a flat tree, by their depths a schema, and the two agree.
#[tactic(auto, using(crate::proofs::ByDepths::not_flat))]
fn keeps_finished(rows: &[Element], bytes: usize) -> bool
    ensures { result ≡ finished_kept bytes rows.now }
{
    FlatTree::new(rows).check() && keeps_rows(rows, bytes) && keeps_sizes(rows)
}

impl Schema {
    // Apart from `check`, so that its other clauses follow from this one, and not anew at every return.
    fn keeps_memory(&self, elements: &[Element], names: &[u8]) -> bool
        ensures { result ≡ memory_kept self.now elements.now names.now }
    {
        let count = self.elements();
        let bytes = self.name_bytes();
        elements.len() >= count && names.len() >= bytes && keeps_finished(&elements[..count], bytes)
    }

    // Whether the lent memory is the finished schema that this one counts: long enough, a flat tree by its sizes in which
    // each row's depth is its depth, nothing below a leaf, names inside the counted bytes, and every row as drafting
    // would have accepted it. Linear in the rows.
    // `law`: memory that drafting and finishing came to, by whatever calls, is always accepted.
    pub fn check(&self, elements: &[Element], names: &[u8]) -> bool
        ensures told { result ≡ memory_kept self.now elements.now names.now }
        ensures tree { Decides result (IsMemory self.now elements.now names.now) }
        ensures law { (h : List Event) → Reached h (whole self.now) elements.now names.now → result ≡ true }
    {
        self.keeps_memory(elements, names)
    }
}
