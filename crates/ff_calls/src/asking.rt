// Calls that are asked of the memory.
ghost use Rattle.std.specs.Prelude.{◌≡◌, IsTrue, length};
ghost use Rattle.ff_memory.specs.Located.{IsLocated};
ghost use Rattle.ff_model.specs.Spans.{is_in_range, is_line_range};
ghost use Rattle.ff_model.specs.declared.op.Op.TheVariants.{Mark, Release, Verify};
ghost use Rattle.ff_calls.specs.Accesses.{Accesses, IsMarking, IsReleasing, IsVerified, LeavesLines};
ghost use Rattle.ff_memory.specs.LineBytes.{SameLineBytes};

use ff_base::PageNo;
use ff_lines::{LineDevice, LineMask};
use ff_memory::{Access, Memory, Side};
use ff_model::{Op, Reply};

/// Asks a call that is in range of the memory. A store's position is that of its entry in the history.
pub fn access<D: LineDevice>(memory: &mut Memory, d: &mut D, op: &Op, position: u32) -> Access
    requires range { IsTrue (is_in_range (length memory.old.table.homes) op.now) }
    requires located { IsLocated memory.old (D.state d.old) }
    ensures accesses { Accesses op.now position memory.old (D.state d.old) result
        memory.new (D.state d.new) }
    ensures located { IsLocated memory.new (D.state d.new) }
    ensures lines { LeavesLines op.now result memory.old (D.state d.old)
        memory.new (D.state d.new) }
    ensures own { D.own d.new ≡ D.own d.old }
{
    match op {
        Op::Load { at, len } => memory.load(d, *at, *len),
        Op::Store { at, bytes } => memory.store(d, *at, bytes, position),
        Op::Verify => verify(memory, d),
        Op::Mark { page, from, count } => mark(memory, d, *page, *from, *count),
        Op::Release { page, from, count } => release(memory, d, *page, *from, *count),
    }
}

fn verify<D: LineDevice>(memory: &mut Memory, d: &mut D) -> Access
    requires located { IsLocated memory.old (D.state d.old) }
    ensures verified { IsVerified memory.old (D.state d.old) result memory.new (D.state d.new) }
    ensures located { IsLocated memory.new (D.state d.new) }
    ensures lines { SameLineBytes memory.old (D.state d.old) memory.new (D.state d.new) }
    ensures own { D.own d.new ≡ D.own d.old }
{
    d.drain_all();
    Access::Served(Reply::Done, Side::Neither)
}

fn mark<D: LineDevice>(
    memory: &mut Memory,
    d: &mut D,
    page: PageNo,
    from: u32,
    count: u32,
) -> Access
    requires range { IsTrue (is_line_range (length memory.old.table.homes) page.0 from count) }
    requires located { IsLocated memory.old (D.state d.old) }
    ensures marks { IsMarking page.0 from count memory.old (D.state d.old) result
        memory.new (D.state d.new) }
    ensures located { IsLocated memory.new (D.state d.new) }
    ensures lines { SameLineBytes memory.old (D.state d.old) memory.new (D.state d.new) }
    ensures own { D.own d.new ≡ D.own d.old }
{
    let mask = LineMask::of_range(from, count);
    memory.mark(d, page, mask.0)
}

fn release<D: LineDevice>(
    memory: &mut Memory,
    d: &mut D,
    page: PageNo,
    from: u32,
    count: u32,
) -> Access
    requires range { IsTrue (is_line_range (length memory.old.table.homes) page.0 from count) }
    requires located { IsLocated memory.old (D.state d.old) }
    ensures releases { IsReleasing page.0 from count memory.old (D.state d.old) result
        memory.new (D.state d.new) }
    ensures located { IsLocated memory.new (D.state d.new) }
    ensures lines { SameLineBytes memory.old (D.state d.old) memory.new (D.state d.new) }
    ensures own { D.own d.new ≡ D.own d.old }
{
    let mask = LineMask::of_range(from, count);
    memory.release(page, mask.0);
    Access::Served(Reply::Done, Side::Neither)
}
