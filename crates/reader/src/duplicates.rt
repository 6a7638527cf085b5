// Duplicate keys: the first key of an object that stands among those before it.
ghost use Rattle.std.specs.Prelude.{◌≤◌, length};
ghost use Rattle.reader.specs.Internal.Values.{KeyHere, DuplicateAt};
ghost use Rattle.reader.specs.Internal.Few.{Walked, HaveKept, IsKept, Keeps};

use super::keys::ObjectKeys;
use super::siblings::side_by_side;
use text::bytes::same_bytes;
use text::span::Span;

// Room for the contents of keys, side by side.
const KEPT_BYTES: usize = 1024;

// How many contents are kept at most.
const KEPT_KEYS: usize = 16;

// The contents of `count` keys, side by side up to `at`, and where each ends.
#[derive(Drop)]
pub struct KeptKeys {
    pub bytes: [u8; KEPT_BYTES],
    pub ends: [usize; KEPT_KEYS],
    pub count: usize,
    pub at: usize,
}

impl KeptKeys {
    // Whether what stands behind these contents, up to `end`, is one of them.
    fn holds(&self, end: usize) -> bool
        requires have_kept { HaveKept self.now.bytes self.now.ends self.now.count self.now.at }
        requires at_le_end { (self.now.at ≤ end) × (end ≤ length self.now.bytes) }
        ensures { IsKept self.now.bytes self.now.ends self.now.count self.now.at end result }
    {
        let own = &self.bytes[self.at..end];
        let mut from = 0;
        for to in &self.ends[..self.count] {
            if same_bytes(&self.bytes[from..*to], own) {
                return true;
            }
            from = *to;
        }
        false
    }

    // Whether the content of a key is another than these, and then it follows them; nothing if it has no room.
    fn keep(&mut self, keys: &ObjectKeys<'_>, key: Span) -> Option<bool>
        requires key_here { KeyHere keys.now.sw keys.now.text.now key.start key.stop }
        requires have_kept { HaveKept self.old.bytes self.old.ends self.old.count self.old.at }
        ensures { Keeps keys.now.sw keys.now.text.now key.start key.stop self.old self.new result }
    {
        if self.count == KEPT_KEYS {
            return None;
        }
        let size = keys.copy(key, &mut self.bytes[self.at..], 0)?;
        let end = self.at + size;
        if self.holds(end) {
            return Some(false);
        }
        self.ends[self.count] = end;
        self.count += 1;
        self.at = end;
        Some(true)
    }
}

impl<'a> ObjectKeys<'a> {
    // The first key from a child on that stands among those before it, where no earlier one does. Each is decoded again at every
    // comparison.
    fn duplicate_from(&self, from: usize) -> Option<usize>
        requires { Walked self.now.sw self.now.text.now self.now.table.now self.now.first from self.now.next }
        ensures { DuplicateAt self.now.sw self.now.text.now self.now.table.now self.now.first self.now.next result }
    {
        for child in side_by_side(self.table, from, self.next) {
            let key = self.span(child);
            if self.has_before(child, key) {
                return Some(key.start);
            }
        }
        None
    }

    // The first key that stands among those before it: quick where they are few. Each is decoded once and compared with those before
    // it as bytes, so long as there is room for them.
    pub(crate) fn duplicate_by_walk(&self) -> Option<usize>
        ensures { DuplicateAt self.now.sw self.now.text.now self.now.table.now self.now.first self.now.next result }
    {
        let mut kept = KeptKeys {
            bytes: [0; KEPT_BYTES],
            ends: [0; KEPT_KEYS],
            count: 0,
            at: 0,
        };
        for child in side_by_side(self.table, self.first, self.next) {
            let key = self.span(child);
            match kept.keep(self, key) {
                Some(true) => {}
                Some(false) => return Some(key.start),
                None => return self.duplicate_from(child),
            }
        }
        None
    }
}
