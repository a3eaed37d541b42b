// Which entries are kept, by the posts that are lost.
use ff_base::PageNo;
use ff_kept::kept_length;
use ff_lines::Post;
use ff_model::Piece;

fn post(position: Option<u32>) -> Post {
    Post {
        page: PageNo(0),
        line: 0,
        from: 0,
        bytes: Piece::new(),
        position,
    }
}

// How many posts arrive, and how many of seven entries are then kept.
static KEPT: [(u32, u32); 6] = [(0, 1), (1, 2), (2, 5), (3, 5), (4, 7), (9, 7)];

#[test]
fn entries_before_the_first_lost_store_are_kept(rt: HostRuntime) {
    let posts = [post(Some(1)), post(Some(2)), post(None), post(Some(5))];
    for (arrive, kept) in KEPT.iter() {
        assert_eq!(rt; kept_length(&posts, *arrive, 7), *kept);
    }
}
