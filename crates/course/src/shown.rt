// What a place of a monitor shows.
ghost use Rattle.monitor.specs.Agrees.{InEveryHistory};
ghost use Rattle.course.specs.Shown.{ShowsText};

use family::family::Family;
use family::text::Text;
use message::place::Place;
use monitor::monitor::Monitor;

// The text that a place shows, if it shows one.
pub fn shown_text<N: Family, M: Family, E: Family>(
    monitor: &Monitor<N, M, E>,
    place: Place,
) -> Option<Text>
    ensures { InEveryHistory N.Family.meaning M.Family.meaning E.Family.meaning monitor.now (λ f h. ShowsText f h place result) }
{
    let mut buffer = [0; 381];
    let length = monitor.copy_text(u8::from(place), &mut buffer).ok()?;
    Text::new(buffer.get(0..length)?).ok()
}
