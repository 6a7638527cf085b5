// The index of an object's keys: a tree of tests on their contents. A content is led through it by a bit at a time, past tests
// that keys before it have set, to the only earlier key that it can be equal to; only these two are compared. A content that is new
// differs from that key in some byte, and a bit of that byte becomes its own test. No key is compared twice, whatever the text,
// and there is no hash that somebody could write keys for.
ghost use Rattle.std.specs.Prelude.{◌≡◌, ◌≢◌, ◌≤◌, ◌<◌, length, MatchOption};
ghost use Rattle.reader.specs.Reading.{max_nodes};
ghost use Rattle.reader.specs.Internal.Values.{KeyHere, DuplicateAt};
ghost use Rattle.reader.specs.Internal.Index.{
  key_bytes,
  agreed,
  bit_at,
  miss_of,
  TellsBy,
  Route,
  Rising,
  Vacant,
  KeyWritten,
  HasKey,
  NodeWritten,
  HasIndex,
  IsPrefixed,
  LookedUp,
};

use super::keys::ObjectKeys;
use super::siblings::side_by_side;
use super::tree::MAX_NODES;
use text::bytes::byte_at;
use text::span::Span;

// Room for a key: two bytes for the length of its content, and the content. One that is longer is compared with all keys before it; a
// text has few so long.
const KEY_BYTES: usize = 2048;

// Where the content begins there.
const CONTENT: usize = 2;

// Each node has two cells, for those that pass its test and for the others.
const CELLS: usize = 2 * MAX_NODES;

// Where a content comes to: the last node whose test it passes, 0 if there is none, and an empty cell.
#[derive(Clone, Copy)]
pub struct Leaf {
    pub node: usize,
    pub cell: usize,
}

// Where a content belongs that is not in the index: the cell, and the test to set.
#[derive(Clone, Copy)]
pub struct Place {
    pub cell: usize,
    pub test: u16,
}

// ---- contents

// The first byte of the first that is another in the second, which is 0 behind its end; nothing if all agree.
fn difference(a: &[u8], b: &[u8]) -> Option<usize>
    ensures { MatchOption result (agreed a.now b.now ≡ length a.now) (λ i. (i ≡ agreed a.now b.now) × (i < length a.now)) }
{
    for (i, x) in a.iter().enumerate() {
        if *x != byte_at(b, i) {
            return Some(i);
        }
    }
    None
}

// ---- tests

// Bit `place` of some bytes, those of each byte from the lowest on; 0 behind the end.
#[tactic(auto, unfolding(crate::specs::Internal::Index::bit_at))]
fn bit_at(s: &[u8], place: usize) -> usize
    ensures { result ≡ bit_at s.now place }
{
    usize::from(byte_at(s, place / 8) >> (place % 8)) % 2
}

// Whether these bytes pass a test: 0 if they do, or else 1.
#[tactic(auto, using(crate::proofs::PrefixLaws::bit_low), unfolding(crate::specs::Internal::Index::miss_of))]
fn miss_of(test: usize, s: &[u8]) -> usize
    ensures { result ≡ miss_of test s.now }
{
    (bit_at(s, test / 2) + test % 2) % 2
}

// A test of byte i that `own` passes and `other`, which is another byte, does not: of the lowest bit in which they differ.
fn test_of(i: usize, own: u8, other: u8) -> u16
    requires in_key { i < key_bytes }
    requires another { own ≢ other }
    ensures { TellsBy i own other result }
{
    let bit = (own ^ other).trailing_zeros() as usize;
    let value = usize::from(own >> bit) % 2;
    ((i * 8 + bit) * 2 + value) as u16
}

// ---- the tree

// Where a key comes to, by its content behind its length.
fn descend(links: &[u16], tests: &[u16], key: &[u8]) -> Leaf
    requires { Rising links.now tests.now }
    ensures { Route links.now tests.now key.now 0 0 result.node result.cell }
{
    let mut node = 0;
    let mut cell = 0;
    loop {
        let next = usize::from(links[cell]);
        if next == 0 {
            return Leaf { node, cell };
        }
        let miss = miss_of(usize::from(tests[next]), key);
        if miss == 0 {
            node = next;
        }
        cell = 2 * next + miss;
    }
}

impl<'a> ObjectKeys<'a> {
    // Writes the content of a key behind its length at the output's front, and answers how many bytes these are; nothing if they have no
    // room.
    fn write(&self, key: Span, out: &mut [u8]) -> Option<usize>
        requires key_here { KeyHere self.now.sw self.now.text.now key.start key.stop }
        requires out_len { length out.old ≡ key_bytes }
        ensures { KeyWritten self.now.sw self.now.text.now key.start key.stop out.new result }
    {
        let end = self.copy(key, out, CONTENT)?;
        let size = end - CONTENT;
        out[0] = (size / 256 + 1) as u8;
        out[1] = (size % 256) as u8;
        Some(end)
    }

    // The same for the key of a node, which has room.
    fn write_of(&self, node: usize, out: &mut [u8]) -> usize
        requires has_key { HasKey self.now.sw self.now.text.now self.now.table.now node }
        requires out_len { length out.old ≡ key_bytes }
        ensures { NodeWritten self.now.sw self.now.text.now self.now.table.now node out.new result }
    {
        self.write(self.span(node), out).unwrap()
    }

    // Where a key belongs in the index, by its content behind its length; nothing if it is there already. `other` is written over.
    fn look_up(&self, links: &[u16], tests: &[u16], key: &[u8], other: &mut [u8]) -> Option<Place>
        requires has_index { HasIndex self.now.sw self.now.text.now self.now.table.now links.now tests.now }
        requires prefixed { IsPrefixed key.now }
        requires other_len { length other.old ≡ key_bytes }
        ensures { LookedUp self.now.sw self.now.text.now self.now.table.now links.now tests.now key.now result }
    {
        let Leaf { node, cell } = descend(links, tests, key);
        if node == 0 {
            let test = test_of(0, byte_at(key, 0), 0);
            return Some(Place { cell, test });
        }
        let n = self.write_of(node, other);
        let other = &other[..n];
        let i = difference(key, other)?;
        let test = test_of(i, byte_at(key, i), byte_at(other, i));
        Some(Place { cell, test })
    }

    // The first key that stands among those before it, by an index that is empty so far.
    fn duplicate_in(&self, links: &mut [u16], tests: &mut [u16]) -> Option<usize>
        requires first_nonzero { (0 < self.now.first) × (self.now.next ≤ max_nodes) }
        requires vacant { Vacant links.old tests.old }
        ensures { DuplicateAt self.now.sw self.now.text.now self.now.table.now self.now.first self.now.next result }
    {
        let mut own = [0u8; KEY_BYTES];
        let mut other = [0u8; KEY_BYTES];
        for child in side_by_side(self.table, self.first, self.next) {
            let key = self.span(child);
            match self.write(key, &mut own) {
                Some(n) => match self.look_up(links, tests, &own[..n], &mut other) {
                    Some(place) => {
                        links[place.cell] = child as u16;
                        tests[child] = place.test;
                    }
                    None => return Some(key.start),
                },
                None => {
                    if self.has_before(child, key) {
                        return Some(key.start);
                    }
                }
            }
        }
        None
    }

    // The first key that stands among those before it. The index takes 28 KiB of the stack.
    pub(crate) fn duplicate_by_index(&self) -> Option<usize>
        requires { (0 < self.now.first) × (self.now.next ≤ max_nodes) }
        ensures { DuplicateAt self.now.sw self.now.text.now self.now.table.now self.now.first self.now.next result }
    {
        let mut links = [0u16; CELLS];
        let mut tests = [0u16; MAX_NODES];
        self.duplicate_in(&mut links, &mut tests)
    }
}
