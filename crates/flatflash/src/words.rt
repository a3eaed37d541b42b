// The words that the program was started with.
ghost use Rattle.std.specs.Prelude.{map, IfOk, IfErr};
ghost use Rattle.std.specs.String.{string_bytes};
ghost use Rattle.flatflash.specs.Words.{AskForWork, IsWordsCause};

use crate::refusal::Refusal;
use ff_words::{BadWords, Command, command};
use std::alloc::Global;

/// What the program is asked to run: the rows of its input, or those that a number makes.
#[derive(Clone, Copy, Debug, PartialEq, Eq)]
pub enum Task {
    Schedule,
    Load(u32),
}

/// What the words ask for; the error says why they ask for nothing that the program runs.
pub fn asked_of(alloc: Global, words: &[String]) -> Result<Task, Refusal>
    ensures ok { IfOk result (AskForWork (map string_bytes words.now)) }
    ensures err { IfErr result (IsWordsCause (map string_bytes words.now)) }
{
    match command(alloc, words) {
        Ok(Command::Schedule) => Ok(Task::Schedule),
        Ok(Command::Load(number)) => Ok(Task::Load(number)),
        Ok(Command::Threads) => Err(Refusal::Usage),
        Err(BadWords::Usage) => Err(Refusal::Usage),
        Err(BadWords::NoMemory) => Err(Refusal::NoMemory),
    }
}
