// Spells the lines of an image.
ghost use Rattle.std.specs.Prelude.{◌≡◌, ◌≤◌, ◌+◌, ◌++◌, ◌==◌, ◌-◌, ◌^◌, if◌then◌else◌, [], codes, length};
ghost use Rattle.std.specs.Int.{to_be_bytes, w64};
ghost use Rattle.hex.specs.Hex.{encode_lower};
ghost use Rattle.ff_report.specs.ImageText.{bytes_line, held_count, image_line, mark_line};
ghost use Rattle.ff_report.specs.RemountedFields.{remounted_view};

use crate::Remounted;
use crate::line::{LINE_ROOM, Line};
use ff_base::{LINE_BYTES, PageNo};
use ff_model::Image;

/// The line of how many pages the image holds, or of why there is none.
#[tactic(auto, unfolding(crate::specs::ImageText::image_line))]
pub fn image_line_of(image: &Remounted<'_>) -> Line
    ensures { result ≡ image_line (remounted_view image.now) }
{
    let mut line = Line::new();
    match image {
        Remounted::Image(image) => {
            line.text(b"pages ");
            line.number(held_pages(image));
            line.text(b"\n");
        }
        Remounted::Fault => line.text(b"no image fault\n"),
        Remounted::Off => line.text(b"no image off\n"),
    }
    line
}

fn held_pages(image: &Image) -> u32
    ensures { result ≡ held_count image.now }
{
    let mut held = 0;
    for page in 0..image.pages() {
        if image.holds(PageNo(page)) {
            held += 1;
        }
    }
    held
}

/// The line of a page's marks.
#[tactic(auto, unfolding(crate::specs::ImageText::mark_line))]
pub fn mark_line_of(page: u32, mask: u64) -> Line
    ensures { result ≡ mark_line page mask }
{
    let mut line = Line::new();
    line.text(b"mark ");
    line.number(page);
    append_mask(&mut line, mask);
    line.text(b"\n");
    line
}

// The mask of all lines is left out.
fn append_mask(line: &mut Line, mask: u64)
    requires { length line.old + 17 ≤ LINE_ROOM }
    ensures text { line.new ≡ line.old
        ++ (if mask == 2 ^ 64 - 1 then [] else codes " " ++ encode_lower (to_be_bytes w64 mask)) }
    ensures size { length line.new ≤ length line.old + 17 }
{
    if mask == u64::MAX {
        return;
    }
    line.text(b" ");
    line.digits(&mask.to_be_bytes());
}

/// The line of the bytes of a page's line.
#[tactic(auto, unfolding(crate::specs::ImageText::bytes_line))]
pub fn bytes_line_of(page: u32, at: u8, bytes: &[u8]) -> Line
    requires { length bytes.now ≡ LINE_BYTES }
    ensures { result ≡ bytes_line page at bytes.now }
{
    let mut line = Line::new();
    line.text(b"line ");
    line.number(page);
    line.text(b" ");
    line.number(u32::from(at));
    line.text(b" ");
    line.digits(bytes);
    line.text(b"\n");
    line
}
