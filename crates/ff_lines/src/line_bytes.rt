// The overlay of a piece on a line, and on a line of a page.
ghost use Rattle.std.specs.Prelude.{◌≡◌, ◌≤◌, ◌<◌, ◌+◌, length};
ghost use Rattle.ff_base.specs.declared.numbers.TheConstants.{PAGE_BYTES, PAGE_LINES};
ghost use Rattle.ff_lines.specs.Overlay.{overlaid, page_overlaid};

use ff_base::{LINE_BYTES, PageBuf};
use ff_model::Piece;

/// Replaces the bytes of a line from an offset on by those of a piece.
pub fn overlay(line: &mut [u8; LINE_BYTES], from: u8, piece: &Piece)
    requires { from + length piece.now ≤ LINE_BYTES }
    ensures { line.new ≡ overlaid line.old from piece.now }
{
    overlay_bytes(line, from as usize, piece.as_slice());
}

fn overlay_bytes(line: &mut [u8; LINE_BYTES], from: usize, bytes: &[u8])
    requires { from + length bytes.now ≤ LINE_BYTES }
    ensures { line.new ≡ overlaid line.old from bytes.now }
{
    line[from..from + bytes.len()].copy_from_slice(bytes);
}

/// Replaces the bytes of a page's line, one below 64, from an offset on by those of a piece.
pub fn overlay_page(page: &mut PageBuf, line: u8, from: u8, piece: &Piece)
    requires line { line < PAGE_LINES }
    requires fits { from + length piece.now ≤ LINE_BYTES }
    ensures bytes { page.new ≡ page_overlaid page.old line from piece.now }
    ensures size { length page.old ≡ PAGE_BYTES }
{
    let mut bytes = page.line(line);
    overlay(&mut bytes, from, piece);
    page.set_line(line, &bytes);
}
