// The number of an answer.
ghost use Rattle.std.specs.Prelude.{◌≡◌};
ghost use Rattle.monitor.specs.Answers.{number_of};

use gatherer::answer::Answer;

// The number under which the answer to an offer is known to programs: 0 where the PDU has no frame.
// Not From: Option and u8 are types of other crates.
pub fn answer_number(answer: Option<Answer>) -> u8
    ensures { result ≡ number_of answer }
{
    answer.map_or(0, u8::from)
}
