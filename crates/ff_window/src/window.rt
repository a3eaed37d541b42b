// A queue of posts with room for a number of them.
ghost use Rattle.std.specs.Prelude.{◌≡◌, ◌<◌, ◌==◌, ◌↔◌, ◌++◌, ◌∷◌, [], IfOk, IsSome, drop, length};
ghost use Rattle.std.specs.Option.{option_or, option_to_list};
ghost use Rattle.ff_lines.specs.Posts.{waits_in, IsPost};
ghost use Rattle.ff_window.specs.Window.{first_position, IsWindowSound};

use ff_base::{NoMemory, PageNo};
use ff_lines::Post;
use std::alloc::Global;
use std::collections::VecDeque;
use std::marker::Model;

/// Stores that wait, first in, first out, with memory for each that may. A contract sees them as a list, the oldest
/// first.
#[derive(Drop)]
pub struct Window {
    posts: VecDeque<Post>,
    room: u32,
}

impl Model for Window {
    ghost use Rattle.ff_window.specs.Window.{WindowView};

    ghost Value = { WindowView };

    ghost use Rattle.ff_window.specs.WindowFields.{view_of, IsKept};

    ghost view = { view_of };

    ghost invariant = { IsKept };
}

impl Window {
    /// An empty window for so many posts.
    pub fn new(alloc: Global, room: u32) -> Result<Window, NoMemory>
        ensures { IfOk result (λ window. window ≡ record { posts = []; room = room }) }
    {
        let posts = VecDeque::with_capacity(alloc, room as usize)?;
        Ok(Window { posts, room })
    }

    /// Whether no further post may wait.
    pub fn is_full(&self) -> bool
        ensures full { result ≡ (length self.now.posts == self.now.room) }
        ensures sound { IsWindowSound self.now }
    {
        self.posts.len() == self.room as usize
    }

    /// How many posts wait.
    pub fn len(&self) -> u32
        ensures count { result ≡ length self.now.posts }
        ensures sound { IsWindowSound self.now }
    {
        let _room = self.room;
        self.posts.len() as u32
    }

    /// Puts a post last. It takes no memory.
    pub fn post(&mut self, post: Post)
        requires room { length self.old.posts < self.old.room }
        requires lines { IsPost post }
        ensures { self.new ≡ record self.old { posts = self.old.posts ++ post ∷ [] } }
    {
        self.posts.push_back_reserved(post);
    }

    /// Takes the oldest post out.
    pub fn pop(&mut self) -> Option<Post>
        ensures posts { self.old.posts ≡ option_to_list result ++ self.new.posts }
        ensures found { IsSome result ↔ (0 < length self.old.posts) }
        ensures rest { self.new.posts ≡ drop 1 self.old.posts }
        ensures room { self.new.room ≡ self.old.room }
        ensures sound { IsWindowSound self.old }
    {
        self.posts.pop_front()
    }

    /// Whether a post to the page waits.
    pub fn waits(&self, page: PageNo) -> bool
        ensures { result ≡ waits_in self.now.posts page.0 }
    {
        self.posts.iter().any(|post| post.page.0 == page.0)
    }

    /// The first position that a waiting post has.
    pub fn first_position(&self) -> Option<u32>
        ensures { result ≡ first_position self.now.posts }
    {
        let (front, back) = self.posts.as_slices();
        earliest(front, back)
    }
}

fn earliest(front: &[Post], back: &[Post]) -> Option<u32>
    ensures { result ≡ option_or (first_position front.now) (first_position back.now) }
{
    first_of(front).or(first_of(back))
}

fn first_of(posts: &[Post]) -> Option<u32>
    ensures { result ≡ first_position posts.now }
{
    for post in posts {
        if post.position.is_some() {
            return post.position;
        }
    }
    None
}
