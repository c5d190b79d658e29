// Refusals, for the `?` of the calls that they end.
ghost use Rattle.std.specs.Prelude.{◌≡◌, if◌then◌else◌, Ok, Err};
ghost use Rattle.family.specs.Meaning.{unless};

use pdu::refusal::Refusal;

// Refuses unless the condition holds.
pub fn require(condition: bool, refusal: Refusal) -> Result<(), Refusal>
    ensures { result ≡ (if condition then Ok (tt {0}) else Err refusal) }
{
    if condition { Ok(()) } else { Err(refusal) }
}

// Refuses what there is a refusal of.
pub fn unless_refused(refusal: Option<Refusal>) -> Result<(), Refusal>
    ensures { result ≡ unless refusal (Ok (tt {0})) }
{
    match refusal {
        Some(refusal) => Err(refusal),
        None => Ok(()),
    }
}
