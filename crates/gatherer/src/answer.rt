// What came of a frame that was accepted.
ghost use Rattle.std.specs.Prelude.{◌≡◌};
ghost use Rattle.gatherer.specs.Answers.{number_of};

#[derive(Clone, Copy, PartialEq, Eq, Debug)]
pub enum Answer {
    // The series is not full.
    Incomplete = 1,
    // The series joined to a record, and none was shown before, or an unequal one.
    NewlyShown = 2,
    // The series joined to a record equal to the one shown before.
    ShownBefore = 3,
    // The series is full, but joins to nothing.
    DoesNotJoin = 4,
}

// The number under which the answer is known to programs.
impl From<Answer> for u8 {
    ghost from_gives = { λ answer number. number ≡ number_of answer };

    fn from(answer: Answer) -> u8 {
        answer as u8
    }
}
