// Repetition and definition level of a row.
#[derive(Clone, Copy, PartialEq, Eq, Debug)]
pub struct Levels {
    pub rep: u16,
    pub def: u16,
}
