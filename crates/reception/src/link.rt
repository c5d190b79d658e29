// A place of a card and the same place of a monitor.
ghost use Rattle.reception.specs.Linked.{InEveryHistory, Passed};

use airing::place::Place;
use family::family::Family;
use gatherer::answer::Answer;
use gatherer::gatherer::Gatherer;

// Draws a frame at a place of the card, and has the same place of a monitor hear it.
pub fn pass<F: Family>(card: &mut Place<F>, monitor: &mut Gatherer<F>) -> Option<Answer>
    ensures { InEveryHistory F.Family.meaning card.old monitor.old (λ s a. Passed F.Family.meaning s a result card.new monitor.new) }
{
    // Not `?`: an edit plants an answer where no frame was drawn.
    match card.draw() {
        Some(frame) => monitor.offer(frame).ok(),
        None => None,
    }
}
