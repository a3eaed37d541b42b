// Which entry of a history is the first that a flat byte array would not have.
ghost use Rattle.std.specs.Prelude.{◌≡◌, ◌<◌, ◌+◌, ◌/◌, ◌↔◌, ◌⊎◌, IfSome, IfNone, IsTrue, is_some, min};
ghost use Rattle.std.specs.List.{list_any};
ghost use Rattle.ff_base.specs.Count.{last_event};
ghost use Rattle.ff_base.specs.Geometry.{IsWithinLimits};
ghost use Rattle.ff_base.specs.declared.numbers.TheConstants.{PAGE_BYTES};
ghost use Rattle.ff_model.specs.Flat.{bears, born_count, flat_byte_of, is_born, stores_to};
ghost use Rattle.ff_model.specs.Image.{held_page};
ghost use Rattle.ff_model.specs.Legal.{IsFault, IsFirstIllegal, IsLegal, MayFollow, due_reply, faults_after, is_refused, is_served, may_fault, next_event, opening_of, served_reply, span_bytes};
ghost use Rattle.ff_model.specs.Judge.{opening_in};
ghost use Rattle.ff_model.specs.Spans.{is_in_range, is_span};

use crate::flat::flat_byte_after;
use crate::{Entry, History, Image, Op, Piece, Reply};
use ff_base::{Geometry, LAST_EVENT, PAGE_BYTES, PageNo};

/// The first entry of a history that may not stand behind those before it, in a session over a geometry that was
/// opened from an image, an event number and a count of faults; none where the history is legal. It is for tests and
/// for users who check a history of their own: it follows the definition, and looks through the entries before each
/// load and, for a store, through them once for each page.
pub fn first_illegal(
    base: &Image,
    history: &History,
    geometry: &Geometry,
    from_event: u64,
    faults: u64,
) -> Option<u32>
    requires { IsWithinLimits geometry.now }
    ensures legal { IfNone result
        (IsLegal (opening_of base.now geometry.now from_event faults) history.now.entries) }
    ensures first { IfSome result
        (IsFirstIllegal (opening_of base.now geometry.now from_event faults) history.now.entries) }
{
    let opening = JudgedFrom {
        base,
        pages: geometry.pages,
        capacity: geometry.capacity(),
        event: from_event,
        faults,
    };
    let count = history.len();
    let entries = history.as_slice();
    for at in 0..count {
        let at_place = at as usize;
        if !may_follow(&opening, &entries[..at_place], &entries[at_place]) {
            return Some(at);
        }
    }
    None
}

// How a session was opened.
#[derive(Clone, Copy)]
struct JudgedFrom<'a> {
    base: &'a Image,
    pages: u32,
    capacity: u32,
    event: u64,
    faults: u64,
}

fn may_follow(opening: &JudgedFrom, before: &[Entry], entry: &Entry) -> bool
    ensures { IsTrue result ↔ MayFollow (opening_in opening.now) before.now entry.now }
{
    next_event(opening, before) <= entry.event
        && entry.event <= LAST_EVENT
        && faults_after(opening, before) <= entry.faults
        && is_reply(opening, before, entry)
}

fn is_reply(opening: &JudgedFrom, before: &[Entry], entry: &Entry) -> bool
    ensures { IsTrue result ↔ ((entry.now.reply
        ≡ due_reply (opening_in opening.now) before.now entry.now.event entry.now.op)
        ⊎ IsFault (opening_in opening.now) before.now entry.now) }
{
    let due = due_reply(opening, before, entry.event, &entry.op);
    if entry.reply == due {
        return true;
    }
    is_fault(opening, before, entry, &due)
}

fn is_fault(opening: &JudgedFrom, before: &[Entry], entry: &Entry, due: &Reply) -> bool
    requires { due.now
        ≡ due_reply (opening_in opening.now) before.now entry.now.event entry.now.op }
    ensures { IsTrue result ↔ IsFault (opening_in opening.now) before.now entry.now }
{
    entry.reply == Reply::Fault
        && may_fault(&entry.op)
        && is_served(due)
        && faults_after(opening, before) < entry.faults
}

fn may_fault(op: &Op) -> bool
    ensures { result ≡ may_fault op.now }
{
    match op {
        Op::Load { .. } | Op::Store { .. } | Op::Mark { .. } => true,
        Op::Verify | Op::Release { .. } => false,
    }
}

fn is_served(reply: &Reply) -> bool
    ensures { result ≡ is_served reply.now }
{
    match reply {
        Reply::Bytes(_) | Reply::Done => true,
        Reply::Range | Reply::Spent | Reply::Full | Reply::Fault => false,
    }
}

fn next_event(opening: &JudgedFrom, before: &[Entry]) -> u64
    ensures { result ≡ next_event (opening_in opening.now) before.now }
{
    let mut event = opening.event;
    for entry in before {
        event = event_after(entry.event);
    }
    event
}

fn event_after(event: u64) -> u64
    ensures { result ≡ min (event + 1) last_event }
{
    if event < LAST_EVENT {
        event + 1
    } else {
        LAST_EVENT
    }
}

fn faults_after(opening: &JudgedFrom, before: &[Entry]) -> u64
    ensures { result ≡ faults_after (opening_in opening.now) before.now }
{
    let mut faults = opening.faults;
    for entry in before {
        faults = entry.faults;
    }
    faults
}

fn due_reply(opening: &JudgedFrom, before: &[Entry], event: u64, op: &Op) -> Reply
    ensures { result ≡ due_reply (opening_in opening.now) before.now event op.now }
{
    if !op.is_in_range(opening.pages) {
        return Reply::Range;
    }
    if event == LAST_EVENT {
        return Reply::Spent;
    }
    if is_refused(opening, before, op) {
        return Reply::Full;
    }
    served_reply(opening, before, op)
}

fn is_refused(opening: &JudgedFrom, before: &[Entry], op: &Op) -> bool
    ensures { result ≡ is_refused (opening_in opening.now) before.now op.now }
{
    match op {
        Op::Store { at, .. } => {
            !is_born(opening.base, before, *at / PAGE_BYTES as u32)
                && born_count(opening, before) == opening.capacity
        }
        _ => false,
    }
}

fn is_born(base: &Image, before: &[Entry], page: u32) -> bool
    ensures { result ≡ is_born base.now before.now page }
{
    is_held(base, page) || is_stored(before, page)
}

fn is_held(base: &Image, page: u32) -> bool
    ensures { result ≡ is_some (held_page base.now page) }
{
    base.page(PageNo(page)).is_some()
}

fn is_stored(entries: &[Entry], page: u32) -> bool
    ensures { result ≡ list_any (bears page) entries.now }
{
    entries.iter().any(|entry| bears(entry, page))
}

fn bears(entry: &Entry, page: u32) -> bool
    ensures { result ≡ bears page entry.now }
{
    match &entry.reply {
        Reply::Done => stores_to(&entry.op, page),
        _ => false,
    }
}

fn stores_to(op: &Op, page: u32) -> bool
    ensures { result ≡ stores_to page op.now }
{
    match op {
        Op::Store { at, .. } => *at / PAGE_BYTES as u32 == page,
        _ => false,
    }
}

fn born_count(opening: &JudgedFrom, before: &[Entry]) -> u32
    ensures { result ≡ born_count opening.now.base.now before.now opening.now.pages }
{
    let mut count = 0;
    for page in 0..opening.pages {
        if is_born(opening.base, before, page) {
            count += 1;
        }
    }
    count
}

fn served_reply(opening: &JudgedFrom, before: &[Entry], op: &Op) -> Reply
    requires { IsTrue (is_in_range opening.now.pages op.now) }
    ensures { result ≡ served_reply (flat_byte_of opening.now.base.now before.now) op.now }
{
    match op {
        Op::Load { at, len } => Reply::Bytes(span(opening, before, *at, *len)),
        _ => Reply::Done,
    }
}

fn span(opening: &JudgedFrom, before: &[Entry], at: u32, len: u32) -> Piece
    requires { IsTrue (is_span opening.now.pages at len) }
    ensures { result ≡ span_bytes (flat_byte_of opening.now.base.now before.now) at len }
{
    let mut bytes = Piece::new();
    for i in 0..len {
        bytes.push(flat_byte_after(opening.base, before, at + i));
    }
    bytes
}
