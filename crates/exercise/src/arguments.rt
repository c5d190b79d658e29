// The texts and the seed, from the words of the command line.
use crate::texts::{TextWords, texts_of};
use alert::alert::AlertHead;
use anyhow::bail;
use course::exercise::Texts;
use station_message::message::MessageHead;
use std::alloc::Global;

#[derive(Clone, Copy)]
pub(crate) struct Arguments {
    pub seed: u32,
    pub texts: Texts<(), MessageHead, AlertHead>,
}

// The texts of a run that is given none.
const DEFAULT_TEXTS: TextWords<'static> = TextWords {
    name: "Dolmughia Bench Radio",
    message: "Welcome to the bench course.",
    changed: "The bench course goes on until four.",
    alert: "Test alert: this is only an exercise.",
};

pub(crate) fn arguments_in(heap: Global, words: &[String]) -> anyhow::Result<Arguments> {
    // Four words are four texts, whatever the first one is.
    let (seed, words) = match words {
        [flag, seed, rest @ ..] if flag.as_str() == "--seed" && words.len() != 4 => {
            (Some(seed), rest)
        }
        _ => (None, words),
    };
    let texts = match words {
        [] => DEFAULT_TEXTS,
        [name, message, changed, alert] => TextWords {
            name: name.as_str(),
            message: message.as_str(),
            changed: changed.as_str(),
            alert: alert.as_str(),
        },
        _ => bail!("there are four texts, or none"),
    };
    let texts = texts_of(heap, texts)?;
    let seed = match seed {
        Some(word) => seed_in(word.as_str())?,
        None => 1,
    };
    Ok(Arguments { seed, texts })
}

// A number like those of the program frames, but of another type and in other words.
fn seed_in(word: &str) -> anyhow::Result<u32> {
    let Ok(seed) = word.parse::<u32>() else {
        bail!("the seed '{word}' is no number up to 4294967295");
    };
    Ok(seed)
}
