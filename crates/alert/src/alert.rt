// The family of alerts under one generator, and the head of an alert.
ghost use Rattle.std.specs.Prelude.{◌≡◌, ◌%◌, ◌<◌};

#[derive(Clone, Copy)]
pub struct Alert {
    // X^7 plus this is the divisor of the check.
    pub generator: u8,
    ghost small: { generator < 128 },
    ghost odd: { generator % 2 ≡ 1 },
}

// Plain numbers: others than the lawful ones come here too, from frames and callers, and are refused.
#[derive(Clone, Copy, PartialEq, Eq, Debug)]
pub struct AlertHead {
    pub encoding: u8,
    // How many pairs of bytes at the text's begin are control data.
    pub control_length: u8,
}
