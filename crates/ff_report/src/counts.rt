// Spells the lines of numbers.
ghost use Rattle.std.specs.Prelude.{◌≡◌, ◌≤◌, ◌+◌, ◌++◌, codes, decimal, length};
ghost use Rattle.ff_report.specs.CountsText.{flash_line, kept_line, kind_text, lines_line, moves_line, turns_line};
ghost use Rattle.ff_report.specs.Text.{calls_line, end_line, load_line, session_line};

use crate::line::{LINE_ROOM, Line};
use ff_model::{Counts, KindTurns, TurnCounts};

/// The line that opens the text of a session.
#[tactic(auto, unfolding(crate::specs::Text::session_line))]
pub fn session_line_of(at: u32) -> Line
    ensures { result ≡ session_line at }
{
    numbered(b"session ", at)
}

/// The line that opens a summary.
#[tactic(auto, unfolding(crate::specs::Text::load_line))]
pub fn load_line_of(number: u32) -> Line
    ensures { result ≡ load_line number }
{
    numbered(b"load ", number)
}

/// The line of how many calls were answered.
#[tactic(auto, unfolding(crate::specs::Text::calls_line))]
pub fn calls_line_of(calls: u32) -> Line
    ensures { result ≡ calls_line calls }
{
    numbered(b"calls ", calls)
}

/// The line of how many entries were kept.
#[tactic(auto, unfolding(crate::specs::CountsText::kept_line))]
pub fn kept_line_of(kept: u32) -> Line
    ensures { result ≡ kept_line kept }
{
    numbered(b"kept ", kept)
}

fn numbered(word: &[u8], number: u32) -> Line
    requires { length word.now ≤ 100 }
    ensures { result ≡ word.now ++ decimal number ++ codes "\n" }
{
    let mut line = Line::new();
    line.text(word);
    line.number(number);
    line.text(b"\n");
    line
}

/// The line that ends a text.
#[tactic(auto, unfolding(crate::specs::Text::end_line))]
pub fn end_line_of() -> Line
    ensures { result ≡ end_line }
{
    let mut line = Line::new();
    line.text(b"end\n");
    line
}

/// The line of the turns of each kind.
#[tactic(auto, unfolding(crate::specs::CountsText::turns_line))]
pub fn turns_line_of(turns: &TurnCounts) -> Line
    ensures { result ≡ turns_line turns.now }
{
    let mut line = Line::new();
    line.text(b"turns promote ");
    append_kind(&mut line, turns.promote);
    line.text(b" evict ");
    append_kind(&mut line, turns.evict);
    line.text(b" collect ");
    append_kind(&mut line, turns.collect);
    line.text(b" drain ");
    append_kind(&mut line, turns.drain);
    line.text(b"\n");
    line
}

fn append_kind(line: &mut Line, turns: KindTurns)
    requires { length line.old + 21 ≤ LINE_ROOM }
    ensures text { line.new ≡ line.old ++ kind_text turns }
    ensures size { length line.new ≤ length line.old + 21 }
{
    line.number(turns.made);
    line.text(b" ");
    line.number(turns.did);
}

/// The line of the loads and stores that each side served, and of the copied lines.
#[tactic(auto, unfolding(crate::specs::CountsText::lines_line))]
pub fn lines_line_of(counts: &Counts) -> Line
    ensures { result ≡ lines_line counts.now }
{
    let mut line = Line::new();
    line.text(b"lines device ");
    line.count(counts.device);
    line.text(b" host ");
    line.count(counts.host);
    line.text(b" landed ");
    line.count(counts.landed);
    line.text(b" dropped ");
    line.count(counts.dropped);
    line.text(b"\n");
    line
}

/// The line of the pages that moved.
#[tactic(auto, unfolding(crate::specs::CountsText::moves_line))]
pub fn moves_line_of(counts: &Counts) -> Line
    ensures { result ≡ moves_line counts.now }
{
    let mut line = Line::new();
    line.text(b"moves promoted ");
    line.count(counts.promoted);
    line.text(b" retreated ");
    line.count(counts.retreated);
    line.text(b"\n");
    line
}

/// The line of the flash's operations and faults.
#[tactic(auto, unfolding(crate::specs::CountsText::flash_line))]
pub fn flash_line_of(counts: &Counts) -> Line
    ensures { result ≡ flash_line counts.now }
{
    let mut line = Line::new();
    line.text(b"flash reads ");
    line.count(counts.reads);
    line.text(b" programs ");
    line.count(counts.programs);
    line.text(b" seals ");
    line.count(counts.seals);
    line.text(b" erases ");
    line.count(counts.erases);
    line.text(b" faults ");
    line.count(counts.faults);
    line.text(b"\n");
    line
}
