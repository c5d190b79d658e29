// The slots of the frames held.
ghost use Rattle.std.specs.Prelude.{◌≡◌, ℕ, ◌<◌, ◌≤◌, Some, None, take, option_map, slice_set};
ghost use Rattle.std.specs.Option.{is_none};
ghost use Rattle.gatherer.specs.Agrees.{slot, held_below, empty_sum};

use crate::gatherer::Table;
use family::family::Payload;

impl Table {
    pub(super) fn empty() -> Table
        ensures { (i : ℕ) → slot result i ≡ None }
    {
        Table { slots: [None; 64] }
    }

    // Holds a frame in the slot of its number, in place of any that was there.
    pub(super) fn put(&mut self, number: usize, frame: Payload)
        requires { number < 64 }
        ensures { self.new.slots ≡ slice_set self.old.slots number (Some frame) }
    {
        self.slots[number] = Some(frame);
    }

    // Whether one of the slots below the count is empty.
    fn has_gap(&self, count: usize) -> bool
        requires { count ≤ 64 }
        ensures { result ≡ is_none (held_below self.now count) }
    {
        for (i, slot) in self.slots[..count].iter().enumerate() {
            if slot.is_none() {
                return true;
            }
        }
        false
    }

    // The frames in the slots below the count, if all of those are held, and then zeros.
    // An array that the caller cuts to the count: a device has fixed memory.
    pub(super) fn frames_below(&self, count: usize) -> Option<[Payload; 64]>
        requires { count ≤ 64 }
        ensures { option_map (take count) result ≡ held_below self.now count }
    {
        // Before the array is made: most offers leave a gap.
        if self.has_gap(count) {
            return None;
        }
        let mut frames = [0; 64];
        // Not zip: what is written through an adapter of iter_mut is not known to a proof.
        for (i, slot) in self.slots[..count].iter().enumerate() {
            frames[i] = (*slot)?;
        }
        Some(frames)
    }

    // The sum of 2^i over the empty slots i below the count.
    pub(super) fn empty_sum(&self, count: usize) -> u64
        requires { count ≤ 64 }
        ensures { result ≡ empty_sum self.now count }
    {
        let mut sum: u64 = 0;
        for (i, slot) in self.slots[..count].iter().enumerate() {
            if slot.is_none() {
                sum += 1 << i;
            }
        }
        sum
    }
}
