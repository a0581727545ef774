// Asking a selection about every leaf.
ghost use Rattle.selection.specs.Choosing.{Chosen};

use crate::select::Selection;
use schema::Refusal;

// Puts the question once for each leaf, rising, and keeps the answers in the chosen flags, false past them. Flags shorter than
// the leaves are refused, and then all false. (That each leaf is asked for once and in order is by the loop: a contract says
// what the answers are, and not when the questions were put.)
pub fn choose<S: Selection>(
    selection: &S,
    leaves: usize,
    chosen: &mut [bool],
) -> Result<(), Refusal>
    ensures told { Chosen (S.Selection.chosen selection.now) leaves chosen.old result chosen.new }
{
    chosen.fill(false);
    if chosen.len() < leaves {
        return Err(Refusal::Table);
    }
    for (leaf, flag) in chosen[..leaves].iter_mut().enumerate() {
        *flag = selection.contains(leaf);
    }
    Ok(())
}
