// A place of the card: the record accepted last, and whether it is on air.
mod calls;
mod questions;

use family::family::Family;
use family::text::Record;

// The record of the latest change.
#[derive(Clone, Copy)]
struct Current<H> {
    record: Record<H>,
    sequence: u8,
    // The number of the frame that is drawn next.
    next: usize,
    // Whether it is on air, or withdrawn.
    on_air: bool,
}

#[derive(Drop)]
pub struct Place<F: Family> {
    family: F,
    current: Option<Current<F::Head>>,
}
