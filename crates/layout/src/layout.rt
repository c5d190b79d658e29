// The numbers of a layout, and the fields of one record's frames.

// The 58 bits of a frame.
pub type Payload = u64;

// How the bytes of a text stand in frames.
#[derive(Clone, Copy)]
pub struct FrameLayout {
    // The bits of a byte.
    pub byte_bits: u32,
    // The bits behind the bytes of a frame.
    pub trailing_bits: u32,
    // The bytes in frame 0, and in each later frame.
    pub first_bytes: usize,
    pub later_bytes: usize,
}

// What stands around the bytes of a record's frames.
#[derive(Clone, Copy)]
pub struct FrameFields {
    // The fields before the bytes of frame 0.
    pub first_leading: u64,
    // Those of a later frame with its number zero, and what each frame adds to them.
    pub later_leading: u64,
    pub number_unit: u64,
    // The fields behind the bytes of every frame.
    pub trailing: u64,
}
