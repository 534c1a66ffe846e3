ghost use Rattle.std.specs.Prelude.{◌≡◌, ℕ, ◌++◌, IfOk, OnOk};
ghost use Rattle.trace_text.specs.Lines.{asked_for, count_of, exchanges_in, exchanges_of, questions, request_of};

use crate::command::Command;
use play::{Exchange, Request};
use std::alloc::{AllocError, Global};

impl Command {
    // What it calls, once or several times. The whole item table is lent.
    fn request(self) -> Request
        ensures { result ≡ request_of self }
    {
        let lent = usize::MAX;
        match self {
            Command::Prime => Request::Prime { lent },
            Command::Hold(v) => Request::Hold(v),
            Command::Step | Command::Steps(_) => Request::Step { lent },
            Command::Firings(v) => Request::Firings(v),
            Command::Fill(e) => Request::Fill(e),
            Command::Front(channel) => Request::Front { channel, lent },
        }
    }

    // How often it calls, which is how many exchanges it has.
    pub(crate) fn count(self) -> usize
        ensures { result ≡ count_of self }
    {
        match self {
            Command::Steps(n) => n as usize,
            _ => 1,
        }
    }
}

// The calls of a command.
fn add(list: &mut Vec<Exchange<u32>>, command: Command) -> Result<(), AllocError>
    ensures { OnOk result (list.new.items ≡ list.old.items ++ exchanges_of command) }
{
    let long = list.len() + command.count();
    list.resize(long, Exchange::new(command.request()))
}

// The calls of some commands.
fn add_all(list: &mut Vec<Exchange<u32>>, commands: &[Command]) -> Result<(), AllocError>
    ensures { OnOk result (list.new.items ≡ list.old.items ++ exchanges_in commands.now) }
{
    for command in commands {
        add(list, *command)?;
    }
    Ok(())
}

// A question for each number from 1 on.
fn add_each<F: Fn(u8) -> Command>(
    list: &mut Vec<Exchange<u32>>,
    count: u8,
    ask: F,
) -> Result<(), AllocError>
    requires { F.IsAlwaysCallable ask }
    ensures { (asks : ℕ → Command) → ((k : ℕ) (c : _) → F.post ask k c → c ≡ asks k) → OnOk result (list.new.items ≡ list.old.items ++ questions asks count) }
{
    for number in 1..=count {
        add(list, ask(number))?;
    }
    Ok(())
}

// The calls of some commands, and behind them the questions of the final table: the firings of each module, the fill of each channel, and
// then its front.
pub(crate) fn requests_of(
    heap: Global,
    commands: &[Command],
    modules: u8,
    channels: u8,
) -> Result<Vec<Exchange<u32>>, AllocError>
    ensures { IfOk result (λ v. v.items ≡ asked_for commands.now modules channels) }
{
    // Room for all of them at once: a list that grows as they come may ask for twice as much.
    let questions = modules as usize + channels as usize + channels as usize;
    let calls = commands.iter().fold(
        questions,
        |calls, command| calls.saturating_add(command.count()),
    );
    let mut list = Vec::with_capacity(heap, calls)?;
    add_all(&mut list, commands)?;
    add_each(&mut list, modules, Command::Firings)?;
    add_each(&mut list, channels, Command::Fill)?;
    add_each(&mut list, channels, Command::Front)?;
    Ok(list)
}
