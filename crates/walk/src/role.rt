// How the walk reads an element.
#[derive(Clone, Copy, PartialEq, Eq, Debug)]
pub enum Role {
    // a leaf, or a group read as a struct: it has a row of its own
    Own,
    // a LIST group, or a MAP group whose entries have one child: its repeated child has the list row
    Listed,
    // the repeated child of such a group, where its one child is the list's element
    Middle,
    // a MAP group of key and value: its repeated child has the map row
    Mapped,
    // that repeated child
    Entries,
}
