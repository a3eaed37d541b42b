// The lines of refusals.
ghost use Rattle.std.specs.Prelude.{◌≡◌, ◌≤◌, ◌++◌, codes, decimal, length};
ghost use Rattle.ff_settings.specs.Names.{text_of};
ghost use Rattle.flatflash.specs.Ending.{input_text, refusal_text, settings_text};

use crate::refusal::Refusal;
use ff_input::BadInput;
use ff_report::Line;
use ff_settings::{BadSettings, SettingName};

/// The line of a refusal, which is empty for want of memory.
pub fn line_of(refusal: Refusal) -> Line
    ensures { result ≡ refusal_text refusal }
{
    match refusal {
        Refusal::NoMemory => Line::new(),
        Refusal::Usage => words(b"usage: flatflash schedule, threads or load N\n"),
        Refusal::Input(why) => input_line(why),
    }
}

fn input_line(why: BadInput) -> Line
    ensures { result ≡ input_text why }
{
    match why {
        BadInput::NoMemory => Line::new(),
        BadInput::ReadFault => words(b"read fault\n"),
        BadInput::TooLong => words(b"trace: too long\n"),
        BadInput::NoSeparator => words(b"trace: no separator\n"),
        BadInput::BadSettings(why) => settings_line(why),
        BadInput::BadRow(number) => row_line(number),
    }
}

fn settings_line(why: BadSettings) -> Line
    ensures { result ≡ settings_text why }
{
    match why {
        BadSettings::NoMemory => Line::new(),
        BadSettings::Text => words(b"settings: text\n"),
        BadSettings::Key => words(b"settings: key\n"),
        BadSettings::Kind(name) => named(b"settings: kind ", name),
        BadSettings::Bound(name) => named(b"settings: bound ", name),
    }
}

fn words(text: &[u8]) -> Line
    requires { length text.now ≤ 64 }
    ensures { result ≡ text.now }
{
    let mut line = Line::new();
    line.text(text);
    line
}

fn row_line(number: u32) -> Line
    ensures { result ≡ codes "trace: row " ++ decimal number ++ codes "\n" }
{
    let mut line = Line::new();
    line.text(b"trace: row ");
    line.number(number);
    line.text(b"\n");
    line
}

fn named(text: &[u8], name: SettingName) -> Line
    requires { length text.now ≤ 64 }
    ensures { result ≡ text.now ++ text_of name ++ codes "\n" }
{
    let mut line = words(text);
    line.text(name.text().as_bytes());
    line.text(b"\n");
    line
}
