ghost use Rattle.std.specs.Prelude.{◌≡◌, ◌≤◌, ◌++◌, length, Some, IfOk, string_bytes, OnOk};
ghost use Rattle.trace_text.specs.Lines.{answer_line, answer_lines, answer_words, calls_in, done, front_words, outcome_from, refuses};

use crate::command::Command;
use play::{Answer, Exchange, Reply};
use std::alloc::{AllocError, Global};
use std::fmt;

// An answer, or none yet, in the words of a trace.
#[derive(Clone, Copy)]
pub(crate) struct Told(pub(crate) Option<Answer<u32>>);

impl fmt::Display for Told {
    ghost output = { λ x. Some (answer_words x.0) };

    fn fmt<W: fmt::Write>(&self, f: &mut fmt::Formatter<W>) -> fmt::Result {
        match self.0 {
            None => write!(f, "open"),
            Some(Ok(reply)) => write!(f, "{reply}"),
            Some(Err(why)) => write!(f, "{why}"),
        }
    }
}

// The item that an answer tells of, or that there is none.
#[derive(Clone, Copy)]
pub(crate) struct Front(pub(crate) Option<Answer<u32>>);

impl fmt::Display for Front {
    ghost output = { λ x. Some (front_words x.0) };

    fn fmt<W: fmt::Write>(&self, f: &mut fmt::Formatter<W>) -> fmt::Result {
        match self.0 {
            Some(Ok(Reply::Item(Some(item)))) => write!(f, "{item}"),
            _ => write!(f, "none"),
        }
    }
}

fn is_refused(answer: Option<Answer<u32>>) -> bool
    ensures { result ≡ refuses answer }
{
    matches!(answer, Some(Err(_)))
}

// The answer of several calls as one: the first refusal, or else the last answer.
fn outcome(own: &[Exchange<u32>]) -> Option<Answer<u32>>
    ensures { result ≡ outcome_from done own.now }
{
    own.iter()
        .find(|exchange| is_refused(exchange.answer))
        .or(own.last())
        .map_or(Some(Ok(Reply::Done)), |exchange| exchange.answer)
}

// The line of a command with the answer of its calls.
fn command_text(heap: Global, command: Command, own: &[Exchange<u32>]) -> Result<String, AllocError>
    ensures { IfOk result (λ s. string_bytes s ≡ answer_line command own.now) }
{
    let answer = Told(outcome(own));
    format!(in heap; "{command}: {answer}\n")
}

// A line for each command. The exchanges are those of the commands, in order.
pub(crate) fn add_answers(
    heap: Global,
    text: &mut String,
    commands: &[Command],
    exchanges: &[Exchange<u32>],
) -> Result<(), AllocError>
    requires { calls_in commands.now ≤ length exchanges.now }
    ensures { OnOk result (string_bytes text.new ≡ string_bytes text.old ++ answer_lines commands.now exchanges.now) }
{
    let mut rest = exchanges;
    for command in commands {
        let (own, others) = rest.split_at(command.count());
        let line = command_text(heap, *command, own)?;
        text.push_str(line.as_str())?;
        rest = others;
    }
    Ok(())
}
