// What came of a record that was accepted.
#[derive(Clone, Copy, PartialEq, Eq, Debug)]
pub enum Stored {
    // It is the first, or unequal to the one accepted before.
    Changed,
    // It equals the one accepted before, which goes on as it was.
    Unchanged,
}
