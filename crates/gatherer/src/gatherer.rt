// A gatherer: the frames held at one place, and the record shown there.
ghost use Rattle.std.specs.Prelude.{◌≡◌, length};

mod gathering;
mod questions;
mod slots;

use family::family::{Family, Payload};
use family::text::Record;

// The frames held, each in the slot of its number.
#[derive(Clone, Copy)]
struct Table {
    slots: [Option<Payload>; 64],
    ghost whole: { length slots ≡ 64 },
}

#[derive(Drop)]
pub struct Gatherer<F: Family> {
    family: F,
    // None while no frame is held, else the one sequence number of the frames held.
    sequence: Option<u8>,
    table: Table,
    shown: Option<Record<F::Head>>,
    // How often a record was newly shown.
    fresh: u32,
}
