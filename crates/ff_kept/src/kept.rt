// How many entries a power loss keeps.
ghost use Rattle.std.specs.Prelude.{◌≡◌, drop};
ghost use Rattle.ff_kept.specs.Keeping.{KeepsAt};
ghost use Rattle.ff_kept.specs.Waiting.{kept_length};

use ff_lines::Post;

/// Of so many entries, how many a power loss keeps where the oldest `arrive` of the waiting posts arrive and the others
/// are lost: those before the first lost store of a caller, else all.
pub fn kept_length(posts: &[Post], arrive: u32, entries: u32) -> u32
    ensures exact { result ≡ kept_length (drop arrive posts.now) entries }
    ensures kept { KeepsAt posts.now arrive entries result }
{
    let arrived = posts.len().min(arrive as usize);
    before_first(&posts[arrived..], entries)
}

fn before_first(lost: &[Post], entries: u32) -> u32
    ensures { result ≡ kept_length lost.now entries }
{
    for post in lost {
        if let Some(position) = post.position {
            return position;
        }
    }
    entries
}
