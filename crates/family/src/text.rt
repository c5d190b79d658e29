// A text of at most 381 bytes, held by value, and a record: a head with a text.
ghost use Rattle.std.specs.Prelude.{◌≡◌, ℕ, ◌<◌, ◌≤◌, length, slice_index};

// An array with its length, and no Vec: a device has fixed memory, and a text is copied with its record.
#[derive(Clone, Copy)]
pub struct Text {
    pub bytes: [u8; 381],
    pub len: usize,
    ghost within: { len ≤ 381 },
    ghost whole: { length bytes ≡ 381 },
    ghost small: { (i : ℕ) → slice_index bytes i < 256 },
}

#[derive(Clone, Copy)]
pub struct Record<H> {
    pub head: H,
    pub text: Text,
}
