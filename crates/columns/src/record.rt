// The path walked so far, and the guard that takes an element off it again.
ghost use Rattle.std.specs.Prelude.{◌≡◌, ◌+◌, ◌-◌, ◌<◌, [], ◌∷◌, ◌++◌, slice_set};
ghost use Rattle.columns.specs.Listing.{walked_path};

// The path walked so far is the first `len` of the numbers; what stands past them is free.
// (No `ArrayVec`: it is not `Copy`, and no constant can hold one, so callers would lose copies and `EMPTY`.)
#[derive(Clone, Copy)]
pub struct PathRecord {
    pub numbers: [usize; 64],
    pub len: usize,
}

impl PathRecord {
    pub const EMPTY: PathRecord = PathRecord {
        numbers: [0; 64],
        len: 0,
    };
}

// An element that has been entered. Dropping the guard takes it off the path, so every way out of a walk, a refusal or
// a `?` too, leaves the record as it was on entry.
pub(crate) struct Guard<'a> {
    pub(crate) walked: &'a mut PathRecord,
}

impl Drop for Guard<'_> {
    fn drop(self)
        requires { 0 < self.walked.now.len }
        ensures len { self.exit.0.now.len ≡ self.entry.walked.now.len - 1 }
        ensures numbers { self.exit.0.now.numbers ≡ self.entry.walked.now.numbers }
    {
        self.walked.len -= 1;
        let Guard { walked: _ } = self;
    }
}

// Puts an element on the path.
pub(crate) fn enter<'a>(walked: &'a mut PathRecord, number: usize) -> Guard<'a>
    requires { walked.old.len < 64 }
    ensures len { result.walked.now.len ≡ walked.old.len + 1 }
    ensures numbers { result.walked.now.numbers ≡ slice_set walked.old.numbers walked.old.len number }
    ensures path { walked_path result.walked.now ≡ walked_path walked.old ++ number ∷ [] }
    ensures lends { result.walked.ghost_name ≡ walked.entry.ghost_name }
{
    let at = walked.len;
    walked.numbers[at] = number;
    walked.len = at + 1;
    Guard { walked }
}
