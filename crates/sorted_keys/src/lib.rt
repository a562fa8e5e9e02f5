// At most 8,192 keys in byte order, each once. They stay where they are, in the lines of a baseline. A key more is put in at its place, which is
// found by halves.
#![tactic(auto)]

ghost use Rattle.std.specs.Prelude.{◌≡◌, ◌&&◌, ltb, [], ◌∷◌, ◌++◌, ◌+◌, ◌≤◌, ◌<◌, length, take, get_or};
ghost use Rattle.arrayvec.specs.ArrayVec.{array_vec_len};
ghost use Rattle.text_rules.specs.Bytes.{before, same};
ghost use Rattle.text_rules.specs.Search.{part};
ghost use Rattle.text_rules.specs.Selection.{Rising};
ghost use Rattle.sorted_keys.specs.Held.{Held, keys_at, no_place};
ghost use Rattle.sorted_keys.specs.Insert.{insert, insert_at, place_of, put_place};

use arrayvec::ArrayVec;
use baseline::Baseline;
use std::marker::Model;
use std::ops::Range;

// How many keys there may be.
pub const MOST: usize = 8192;

// Where a key stands in the lines.
// Kept: two numbers of 32 bits. A slice of the lines takes twice the room, and 8,192 places are 64 KB of the stack already.
#[derive(Clone, Copy, Default)]
struct Place {
    from: u32,
    to: u32,
}

// The keys, by their places. Clauses see the lines, the keys and the places.
#[derive(Drop)]
pub struct Keys<'a> {
    baseline: Baseline<'a>,
    places: ArrayVec<Place, 8192>,
}

impl<'a> Model for Keys<'a> {
    ghost use Rattle.sorted_keys.specs.KeyList.{KeyList};

    ghost Value = { KeyList };

    ghost use Rattle.sorted_keys.specs.Seen.{all_held, seen};

    ghost view = { seen };

    ghost invariant = { all_held };
}

// Eight places move by one: the one that is given stands in front, and the last one is handed back.
// Kept: all eight are read before one is written, so that they go two at a time, as 16 bytes. Read and written in turn, each goes alone.
fn carry_eight(cells: &mut [Place], first: Place) -> Place
    requires { length cells.old ≡ 8 }
    ensures { cells.new ++ result ∷ [] ≡ first ∷ cells.old }
{
    let a = cells[0];
    let b = cells[1];
    let c = cells[2];
    let d = cells[3];
    let e = cells[4];
    let f = cells[5];
    let g = cells[6];
    let last = cells[7];
    cells[0] = first;
    cells[1] = a;
    cells[2] = b;
    cells[3] = c;
    cells[4] = d;
    cells[5] = e;
    cells[6] = f;
    cells[7] = g;
    last
}

// All places move by one: the one that is given stands in front, and the last one is handed back.
// Kept: `insert` calls memmove, a name that the archive for C would need from outside.
fn carry(cells: &mut [Place], first: Place) -> Place
    ensures { cells.new ++ result ∷ [] ≡ first ∷ cells.old }
{
    let eights = cells.len() / 8;
    let mut carried = first;
    for k in 0..eights {
        carried = carry_eight(&mut cells[8 * k..8 * k + 8], carried);
    }
    for i in 8 * eights..cells.len() {
        let next = cells[i];
        cells[i] = carried;
        carried = next;
    }
    carried
}

// A place put in at a number. Those from there on move by one, and where all are taken, the last one is dropped.
fn put_in(places: &mut ArrayVec<Place, 8192>, at: usize, place: Place)
    requires { (at ≤ array_vec_len places.old) × (at < 8192) }
    ensures { places.new.items ≡ take 8192 (insert_at at place places.old.items) }
{
    places.truncate(MOST - 1);
    let last = carry(&mut places[at..], place);
    places.push(last);
}

impl<'a> Keys<'a> {
    // No key of these lines.
    pub fn none(baseline: Baseline<'a>) -> Keys<'a>
        ensures lines { result.lines ≡ baseline.entry.lines.now }
        ensures keys { result.keys ≡ [] }
        ensures places { result.places ≡ [] }
    {
        Keys {
            baseline,
            places: ArrayVec::new(),
        }
    }

    // How many keys there are. They rise, and each stands at its place.
    pub fn len(&self) -> usize
        ensures count { result ≡ length self.now.keys }
        ensures few { result ≤ 8192 }
        ensures rising { Rising before self.now.keys }
        ensures held { Held self.now.lines self.now.places × (self.now.keys ≡ keys_at self.now.lines self.now.places) }
    {
        self.places.len()
    }

    // Where the key with a number stands in the lines.
    pub fn span(&self, i: usize) -> Range<usize>
        requires { i < length self.now.keys }
        ensures bytes { part result.start result.end self.now.lines ≡ get_or self.now.keys i [] }
        ensures order { result.start ≤ result.end }
        ensures inside { result.end ≤ length self.now.lines }
        ensures short { result.end ≤ 33554432 }
        ensures place { (result.start ≡ (get_or self.now.places i no_place).from) × (result.end ≡ (get_or self.now.places i no_place).to) }
    {
        let place = self.places[i];
        place.from as usize..place.to as usize
    }

    // The bytes of the key with a number.
    pub fn key(&self, i: usize) -> &'a [u8]
        requires { i < length self.now.keys }
        ensures bytes { result.now ≡ get_or self.now.keys i [] }
        ensures short { length result.now ≤ 33554432 }
    {
        &self.baseline.lines[self.span(i)]
    }

    // How many keys stand before a key. They rise, so it is found by halves.
    fn place_of(&self, bytes: &[u8]) -> usize
        ensures place { result ≡ place_of bytes.now self.now.keys }
        ensures few { result ≤ length self.now.keys }
    {
        halving::boundary(self.len(), |i| order::before(self.key(i), bytes))
    }

    // Whether a key stands at a number.
    fn stands_at(&self, at: usize, bytes: &[u8]) -> bool
        ensures { result ≡ (ltb at (length self.now.keys) && same (get_or self.now.keys at []) bytes.now) }
    {
        at < self.len() && order::same_bytes(self.key(at), bytes)
    }

    // The key that begins at a place of the lines, put in where it belongs, if it does not stand there yet. Where all places are taken, the last key
    // is dropped.
    pub fn insert(&mut self, from: usize, key: &[u8])
        requires stands { part from (from + length key.now) self.old.lines ≡ key.now }
        requires inside { from + length key.now ≤ length self.old.lines }
        ensures lines { self.new.lines ≡ self.old.lines }
        ensures keys { self.new.keys ≡ take 8192 (insert key.now self.old.keys) }
        ensures places { self.new.places
            ≡ put_place key.now (record { from = from; to = from + length key.now }) self.old.keys self.old.places }
    {
        let at = self.place_of(key);
        if at == MOST {
            return;
        }
        if self.stands_at(at, key) {
            return;
        }
        let to = from + key.len();
        put_in(
            &mut self.places,
            at,
            Place {
                from: from as u32,
                to: to as u32,
            },
        );
    }
}

#[cfg(test)]
mod tests {
    use super::Keys;
    use baseline::Baseline;

    // A key that is put in again stays where it stood first, and one that is before it in byte order goes in front.
    #[test]
    fn put_in_again(rt: HostRuntime) {
        let mut keys = Keys::none(Baseline {
            lines: b"key key a",
        });
        keys.insert(4, b"key");
        keys.insert(0, b"key");
        assert_eq!(rt; keys.len(), 1);
        assert_eq!(rt; keys.span(0), 4..7);
        keys.insert(8, b"a");
        assert_eq!(rt; keys.len(), 2);
        assert_eq!(rt; keys.span(0), 8..9);
        assert_eq!(rt; keys.span(1), 4..7);
    }
}
