// Writes the marks and bytes of an image.
ghost use Rattle.std.specs.Prelude.{◌≡◌, ◌<◌, Some, length};
ghost use Rattle.std.specs.Option.{option_copied};
ghost use Rattle.ff_base.specs.Page.{line_of};
ghost use Rattle.ff_report.specs.ImageText.{image_text, is_all_zero, line_text, mark_text, marks_text, page_text, pages_text};
ghost use Rattle.ff_report.specs.Remounted.{Found};
ghost use Rattle.ff_report.specs.RemountedFields.{remounted_view};
ghost use Rattle.ff_report.specs.Wrote.{Wrote};

use crate::Remounted;
use crate::image_lines::{bytes_line_of, mark_line_of};
use crate::writing::write_line;
use ff_base::{LINE_BYTES, PAGE_LINES, PageBuf, PageNo};
use ff_io::{Failed, Sink};
use ff_model::Image;

/// Writes the marks and bytes of the image, where there is one.
pub fn write_image<K: Sink>(sink: &mut K, image: &Remounted<'_>) -> Result<(), Failed>
    ensures { Wrote result (K.written sink.old) (K.written sink.new)
        (K.faults sink.old) (K.faults sink.new) (image_text (remounted_view image.now)) }
{
    match image {
        Remounted::Image(image) => write_found(sink, image),
        Remounted::Fault => Ok(()),
        Remounted::Off => Ok(()),
    }
}

fn write_found<K: Sink>(sink: &mut K, image: &Image) -> Result<(), Failed>
    ensures { Wrote result (K.written sink.old) (K.written sink.new)
        (K.faults sink.old) (K.faults sink.new) (image_text (Found image.now)) }
{
    match write_marks(sink, image) {
        Ok(()) => write_pages(sink, image),
        Err(failed) => Err(failed),
    }
}

fn write_marks<K: Sink>(sink: &mut K, image: &Image) -> Result<(), Failed>
    ensures { Wrote result (K.written sink.old) (K.written sink.new)
        (K.faults sink.old) (K.faults sink.new) (marks_text image.now) }
{
    for page in 0..image.pages() {
        match write_mark(sink, image, page) {
            Ok(()) => {}
            Err(failed) => return Err(failed),
        }
    }
    Ok(())
}

#[tactic(auto, using(crate::proofs::InOrder::Wrote_none))]
fn write_mark<K: Sink>(sink: &mut K, image: &Image, page: u32) -> Result<(), Failed>
    requires { page < length image.now.pages }
    ensures { Wrote result (K.written sink.old) (K.written sink.new)
        (K.faults sink.old) (K.faults sink.new) (mark_text image.now page) }
{
    let mask = image.marks(PageNo(page));
    if mask == 0 {
        return Ok(());
    }
    write_line(sink, &mark_line_of(page, mask))
}

fn write_pages<K: Sink>(sink: &mut K, image: &Image) -> Result<(), Failed>
    ensures { Wrote result (K.written sink.old) (K.written sink.new)
        (K.faults sink.old) (K.faults sink.new) (pages_text image.now) }
{
    for page in 0..image.pages() {
        match write_page(sink, page, image.page(PageNo(page))) {
            Ok(()) => {}
            Err(failed) => return Err(failed),
        }
    }
    Ok(())
}

fn write_page<K: Sink>(sink: &mut K, page: u32, bytes: Option<&PageBuf>) -> Result<(), Failed>
    ensures { Wrote result (K.written sink.old) (K.written sink.new)
        (K.faults sink.old) (K.faults sink.new) (page_text page (option_copied bytes.entry)) }
{
    match bytes {
        Some(bytes) => write_held(sink, page, bytes),
        None => Ok(()),
    }
}

fn write_held<K: Sink>(sink: &mut K, page: u32, bytes: &PageBuf) -> Result<(), Failed>
    ensures { Wrote result (K.written sink.old) (K.written sink.new)
        (K.faults sink.old) (K.faults sink.new) (page_text page (Some bytes.now)) }
{
    for line in 0..PAGE_LINES as u8 {
        match write_page_line(sink, page, line, bytes) {
            Ok(()) => {}
            Err(failed) => return Err(failed),
        }
    }
    Ok(())
}

fn write_page_line<K: Sink>(
    sink: &mut K,
    page: u32,
    line: u8,
    bytes: &PageBuf,
) -> Result<(), Failed>
    requires { line < PAGE_LINES }
    ensures { Wrote result (K.written sink.old) (K.written sink.new)
        (K.faults sink.old) (K.faults sink.new) (line_text page bytes.now line) }
{
    let bytes = line_bytes(bytes, line);
    if is_all_zero(bytes) {
        return Ok(());
    }
    write_line(sink, &bytes_line_of(page, line, bytes))
}

// The bytes of a line, without a copy.
fn line_bytes(bytes: &PageBuf, line: u8) -> &[u8]
    requires { line < PAGE_LINES }
    ensures bytes { result.now ≡ line_of bytes.now line }
    ensures size { length result.now ≡ LINE_BYTES }
{
    let from = LINE_BYTES * line as usize;
    &bytes.as_slice()[from..from + LINE_BYTES]
}

fn is_all_zero(bytes: &[u8]) -> bool
    ensures { result ≡ is_all_zero bytes.now }
{
    bytes.iter().all(|byte| *byte == 0)
}
