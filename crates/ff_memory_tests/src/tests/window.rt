// Posts leave the window in the order in which they came.
ghost use Rattle.ff_lines.specs.Posts.{IsPost};

use ff_base::PageNo;
use ff_model::Piece;
use ff_window::{Post, Window};
use std::test::Fail;

fn post(page: u32, position: Option<u32>) -> Post
    ensures { IsPost result }
{
    Post {
        page: PageNo(page),
        line: 1,
        from: 2,
        bytes: Piece::new(),
        position,
    }
}

// Posts an empty piece, where there is room.
fn is_posted(window: &mut Window, page: u32, position: Option<u32>) -> bool {
    if window.is_full() {
        return false;
    }
    window.post(post(page, position));
    true
}

// How many posts wait, whether there is room for no more, and the first position of those that wait.
fn state(window: &Window) -> (u32, bool, Option<u32>) {
    (window.len(), window.is_full(), window.first_position())
}

// The post that leaves, and whether others to its page wait still.
fn pop(window: &mut Window) -> Option<(Post, bool)> {
    let post = window.pop()?;
    let waits = window.waits(post.page);
    Some((post, waits))
}

// The page and the position of each post, and whether others to its page wait when it leaves.
static POSTS: [(u32, Option<u32>, bool); 3] = [
    (7, None, true),
    (8, Some(5), false),
    (7, Some(6), false),
];

#[test]
fn the_oldest_post_leaves_first(rt: HostRuntime) -> Result<(), Fail> {
    let mut window = Window::new(rt.alloc(), 3)?;
    assert_eq!(rt; pop(&mut window), None);
    for (page, position, _) in POSTS.iter() {
        assert!(rt; is_posted(&mut window, *page, *position));
    }
    assert_eq!(rt; state(&window), (3, true, Some(5)));
    for (page, position, waits) in POSTS.iter() {
        let wanted = (post(*page, *position), *waits);
        assert_eq!(rt; pop(&mut window), Some(wanted));
    }
    assert_eq!(rt; state(&window), (0, false, None));
    Ok(())
}
