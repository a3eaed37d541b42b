// Words and what they ask for.
use ff_words::{BadWords, Command, command};
use std::alloc::{AllocError, Global};
use std::test::Fail;

// The words, and what they ask for.
type Line = (&'static [&'static str], Result<Command, BadWords>);

static LINES: [Line; 35] = [
    (&["flatflash", "schedule"], Ok(Command::Schedule)),
    (&["flatflash", "threads"], Ok(Command::Threads)),
    (&["flatflash", "load", "0"], Ok(Command::Load(0))),
    (&["flatflash", "load", "7"], Ok(Command::Load(7))),
    (
        &["flatflash", "load", "4294967295"],
        Ok(Command::Load(4_294_967_295)),
    ),
    (&["flatflash", "load", "+7"], Ok(Command::Load(7))),
    (&["flatflash", "load", "007"], Ok(Command::Load(7))),
    (&["flatflash", "load", "--", "7"], Ok(Command::Load(7))),
    (&["flatflash", "schedule", "--"], Ok(Command::Schedule)),
    (&["", "threads"], Ok(Command::Threads)),
    (&[], Err(BadWords::Usage)),
    (&["flatflash"], Err(BadWords::Usage)),
    (&["flatflash", "Schedule"], Err(BadWords::Usage)),
    (&["flatflash", "sched"], Err(BadWords::Usage)),
    (&["flatflash", "schedule", "extra"], Err(BadWords::Usage)),
    (&["flatflash", "threads", "2"], Err(BadWords::Usage)),
    (&["flatflash", "load"], Err(BadWords::Usage)),
    (&["flatflash", "load", "4294967296"], Err(BadWords::Usage)),
    (&["flatflash", "load", "-1"], Err(BadWords::Usage)),
    (&["flatflash", "load", "7.0"], Err(BadWords::Usage)),
    (&["flatflash", "load", "0x7"], Err(BadWords::Usage)),
    (&["flatflash", "load", ""], Err(BadWords::Usage)),
    (&["flatflash", "load", "7", "8"], Err(BadWords::Usage)),
    (&["flatflash", "load", "load"], Err(BadWords::Usage)),
    (&["flatflash", "help"], Err(BadWords::Usage)),
    (&["flatflash", "--help"], Err(BadWords::Usage)),
    (&["flatflash", "-h"], Err(BadWords::Usage)),
    (&["flatflash", "--version"], Err(BadWords::Usage)),
    (&["flatflash", "schedule", "--help"], Err(BadWords::Usage)),
    (&["flatflash", "load", "--help"], Err(BadWords::Usage)),
    (&["flatflash", "help", "load"], Err(BadWords::Usage)),
    (&["flatflash", "7"], Err(BadWords::Usage)),
    (&["flatflash", "--", "schedule"], Err(BadWords::Usage)),
    (&["flatflash", "schedule", "threads"], Err(BadWords::Usage)),
    (&["schedule"], Err(BadWords::Usage)),
];

fn owned(alloc: Global, words: &[&str]) -> Result<Vec<String>, AllocError> {
    let mut list = Vec::new(alloc);
    for word in words {
        list.push(String::from_str(alloc, word)?)?;
    }
    Ok(list)
}

#[test]
fn words_mean_what_clap_states(rt: HostRuntime) -> Result<(), Fail> {
    for (words, wanted) in LINES.iter() {
        let list = owned(rt.alloc(), words)?;
        assert_eq!(rt; command(rt.alloc(), &list), *wanted, "at {words:?}");
    }
    Ok(())
}
