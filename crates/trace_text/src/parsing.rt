ghost use Rattle.std.specs.Prelude.{◌≡◌, ◌<◌, ◌++◌, length, IfSome, codes, decimal};
ghost use Rattle.trace_text.specs.Lines.{command_words};

use crate::command::Command;
use std::alloc::{AllocError, Global};

// What a word asks for that has a number behind it.
fn numbered(word: &str, number: u8) -> Option<Command>
    ensures { IfSome result (λ c. command_words c ≡ word.now ++ (codes " " ++ decimal number)) }
{
    match word {
        "hold" => Some(Command::Hold(number)),
        "firings" => Some(Command::Firings(number)),
        "fill" => Some(Command::Fill(number)),
        "front" => Some(Command::Front(number)),
        _ => None,
    }
}

// What a word asks for that may stand alone.
fn alone(word: &str) -> Option<Command>
    ensures { IfSome result (λ c. command_words c ≡ word.now) }
{
    match word {
        "prime" => Some(Command::Prime),
        "step" => Some(Command::Step),
        _ => None,
    }
}

// What two words ask for, if they belong together.
fn pair(word: &str, next: &str) -> Option<Command> {
    match word {
        "step" => next.parse().ok().map(Command::Steps),
        _ => numbered(word, next.parse().ok()?),
    }
}

// The command at the front of some words, and the words behind it.
fn first(words: &[String]) -> Option<(Command, &[String])>
    ensures { IfSome result (λ p. length p.1.now < length words.now) }
{
    let (word, rest) = words.split_first()?;
    if let Some((next, others)) = rest.split_first() {
        if let Some(command) = pair(word.as_str(), next.as_str()) {
            return Some((command, others));
        }
    }
    Some((alone(word.as_str())?, rest))
}

/// The commands that some words ask for, or nothing if one is not understood.
pub fn parse(heap: Global, words: &[String]) -> Result<Option<Vec<Command>>, AllocError> {
    let mut commands = Vec::new(heap);
    let mut rest = words;
    while let Some((command, others)) = first(rest) {
        commands.push(command)?;
        rest = others;
    }
    if rest.is_empty() {
        Ok(Some(commands))
    } else {
        Ok(None)
    }
}
