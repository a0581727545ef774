// A selection written outside the library: the leaves with odd numbers.
#![tactic(auto)]

ghost use Rattle.std.specs.Prelude.{◌%◌, ◌==◌};

use selection::Selection;

#[derive(Clone, Copy)]
pub struct OddLeaves;

impl Selection for OddLeaves {
    ghost chosen = { λ _ n. (n % 2 == 1) };

    fn contains(&self, leaf: usize) -> bool {
        leaf % 2 == 1
    }
}

#[cfg(test)]
mod tests {
    use super::*;
    use selection::choose;

    #[test]
    fn chooses_odd_leaves(rt: HostRuntime) {
        let mut chosen = [true; 6];
        assert!(rt; choose(&OddLeaves, 5, &mut chosen).is_ok());
        assert_eq!(rt; chosen, [false, true, false, true, false, false]);
    }
}
