// Stores on a plain device read back, and the post that waits is drained by the next.
use ff_base::PageNo;
use ff_lines::{LineDevice, Work};
use ff_model::Piece;
use ff_plain::Plain;
use std::alloc::Global;
use std::test::Fail;

// A device of two pages with two pieces laid over line 1 of page 1, and what its work for that page came to.
fn posted(alloc: Global) -> Result<(Plain, Work), Fail> {
    let mut plain = Plain::new(alloc, 2)?;
    let page = PageNo(1);
    let work = plain.work(page);
    plain.pin(page, true);
    plain.post(page, 1, 0, &Piece::from_slice(&[1, 2, 3]), Some(0));
    plain.post(page, 1, 1, &Piece::from_slice(&[9]), None);
    plain.drain_all();
    Ok((plain, work))
}

// A line of a page that the device has.
fn line(plain: &mut Plain, page: u32, line: u8) -> Option<[u8; 64]> {
    if line >= 64 || !plain.resident(PageNo(page)) {
        return None;
    }
    Some(plain.read_line(PageNo(page), line, true))
}

// Lines 1 and 0 of page 1, and line 1 of the page before it and of the one behind it.
fn lines(plain: &mut Plain) -> [Option<[u8; 64]>; 4] {
    [
        line(plain, 1, 1),
        line(plain, 1, 0),
        line(plain, 0, 1),
        line(plain, 2, 1),
    ]
}

#[test]
fn posts_are_laid_in_their_order(rt: HostRuntime) -> Result<(), Fail> {
    let (mut plain, work) = posted(rt.alloc())?;
    assert_eq!(rt; work, Work::Ready);
    let mut laid = [0; 64];
    laid[..3].copy_from_slice(&[1, 9, 3]);
    let zeros = Some([0; 64]);
    assert_eq!(rt; lines(&mut plain), [Some(laid), zeros, zeros, None]);
    Ok(())
}
