// Which leaves to read: sets of leaf numbers, asked for one number at a time.
#![tactic(auto)]

mod choice;
mod choosing;
mod flagging;
mod select;

pub use choice::Choice;
pub use choosing::choose;
pub use flagging::flag;
pub use select::{All, Both, Either, Flags, Roots, Selection};

#[cfg(test)]
mod tests {
    use super::*;
    use columns::Column;
    use schema::Refusal;
    use std::array;

    fn below(root: usize) -> Column {
        Column {
            root,
            ..Column::EMPTY
        }
    }

    // Six answers, from leaf 0 on.
    fn six<S: Selection>(selection: &S) -> [bool; 6] {
        array::from_fn(|leaf| selection.contains(leaf))
    }

    // The flags end after number 3, and the columns after leaf 4; leaf 2 lies below a root past the flags.
    #[test]
    fn kinds(rt: HostRuntime) {
        let flags = [false, true, false, true];
        let columns = [below(1), below(0), below(4), below(3), below(1)];
        let leaves = Flags(&flags);
        let roots = Roots {
            columns: &columns,
            flags: &flags,
        };
        assert_eq!(rt; six(&All), [true; 6]);
        assert_eq!(rt; six(&leaves), [false, true, false, true, false, false]);
        assert_eq!(rt; six(&roots), [true, false, false, true, true, false]);
        let either = Either(leaves, roots);
        assert_eq!(rt; six(&either), [true, true, false, true, true, false]);
        let both = Both(leaves, roots);
        assert_eq!(rt; six(&both), [false, false, false, true, false, false]);
        assert_eq!(rt; six(&Both(Either(both, All), roots)), six(&roots));
        assert_eq!(rt; six(&Choice::All), six(&All));
        assert_eq!(rt; six(&Choice::Leaves(leaves)), six(&leaves));
        assert_eq!(rt; six(&Choice::Roots(roots)), six(&roots));
    }

    #[test]
    fn flags_numbers(rt: HostRuntime) {
        let mut flags = [false; 3];
        assert_eq!(rt; flag(&mut flags, 2), Ok(()));
        assert_eq!(rt; flag(&mut flags, 3).map_err(Refusal::number), Err(24));
        assert_eq!(rt; flags, [false, false, true]);
        assert_eq!(rt; flag(&mut flags, 0), Ok(()));
        assert_eq!(rt; flag(&mut flags, 2), Ok(()));
        assert_eq!(rt; flags, [true, false, true]);
    }

    // Flags that just fit, one too few, and more than there are leaves.
    #[test]
    fn keeps_answers(rt: HostRuntime) {
        let leaves = Flags(&[true, false, true, true]);
        let mut chosen = [false, true, true];
        assert_eq!(rt; choose(&leaves, 3, &mut chosen), Ok(()));
        assert_eq!(rt; chosen, [true, false, true]);
        assert_eq!(rt;
            choose(&leaves, 4, &mut chosen).map_err(Refusal::number),
            Err(9)
        );
        assert_eq!(rt; chosen, [false; 3]);
        let mut more = [true; 6];
        assert_eq!(rt; choose(&leaves, 3, &mut more), Ok(()));
        assert_eq!(rt; more, [true, false, true, false, false, false]);
    }
}
