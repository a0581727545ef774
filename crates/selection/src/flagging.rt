// Flags in the caller's memory, set one at a time.
ghost use Rattle.std.specs.Prelude.{◌≡◌, ℕ, Bool, List, ◌∷◌, is_ok};
ghost use Rattle.selection.specs.Sets.{in_flags, union};
ghost use Rattle.selection.specs.Flagging.{Flagging, Flag, Flagged, in_accepted};

use schema::Refusal;

// Sets one flag; a number outside the flags is refused, and alters nothing.
// `law`: flags that any flaggings alone changed, some accepted and some refused, this one the last, mean as `Flags` exactly
// the numbers that they began with and the accepted ones.
pub fn flag(flags: &mut [bool], number: usize) -> Result<(), Refusal>
    ensures told { Flag number flags.old result flags.new }
    ensures law { (start : List Bool) (h : List Flagging) → Flagged start h flags.old → (n : ℕ) → in_flags flags.new n ≡ union (in_flags start) (in_accepted (record { number = number; accepted = is_ok result } ∷ h)) n }
{
    if number >= flags.len() {
        return Err(Refusal::FlagOutside);
    }
    flags[number] = true;
    Ok(())
}
