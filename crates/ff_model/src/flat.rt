// The flat byte of a history, by its definition.
ghost use Rattle.std.specs.Prelude.{◌≡◌};
ghost use Rattle.ff_model.specs.Flat.{covering_byte, flat_byte_of, latest, stored_byte};

use crate::{Entry, History, Image, Op, Reply};

/// The byte at an address after a history, by its definition: the byte of the latest store answered `Done` that
/// covers the address, else that of the image at the start, else zero. It looks at every entry, so that other ways
/// to keep the bytes can be compared with it.
pub fn flat_byte(base: &Image, history: &History, at: u32) -> u8
    ensures { result ≡ flat_byte_of base.now history.now.entries at }
{
    flat_byte_after(base, history.as_slice(), at)
}

/// The byte at an address after these entries.
pub(crate) fn flat_byte_after(base: &Image, entries: &[Entry], at: u32) -> u8
    ensures { result ≡ flat_byte_of base.now entries.now at }
{
    match latest_byte(entries, at) {
        Some(byte) => byte,
        None => base.byte(at),
    }
}

fn latest_byte(entries: &[Entry], address: u32) -> Option<u8>
    ensures { result ≡ latest (stored_byte address) entries.now }
{
    let mut found = None;
    for entry in entries {
        found = stored(entry, address).or(found);
    }
    found
}

fn stored(entry: &Entry, address: u32) -> Option<u8>
    ensures { result ≡ stored_byte address entry.now }
{
    match &entry.reply {
        Reply::Done => covering(&entry.op, address),
        _ => None,
    }
}

fn covering(op: &Op, address: u32) -> Option<u8>
    ensures { result ≡ covering_byte address op.now }
{
    match op {
        Op::Store { at, bytes } if *at <= address => {
            bytes.as_slice().get((address - at) as usize).copied()
        }
        _ => None,
    }
}
