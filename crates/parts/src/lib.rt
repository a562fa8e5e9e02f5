// What is noted of the brackets of a part of a text: where the list of parameters that each opens ends, and where the body behind it begins. One
// pass over the text tells them for all brackets of the part.
#![tactic(auto)]

ghost use Rattle.std.specs.Prelude.{◌≡◌, [], ◌∷◌, ◌+◌, ◌-◌, ◌≤◌, ◌<◌, length};
ghost use Rattle.bodies.specs.Bodies.{Finds};
ghost use Rattle.parts.specs.Filling.{AllUnmet, Closes, ClosesNote, InOrder, Passed, Telling, Within};
ghost use Rattle.parts.specs.Told.{NoteTells};
ghost use Rattle.windows.specs.Window.{Noted};

use arrayvec::ArrayVec;
use bodies::Sought;
use chunks::TextSums;
use part::Part;
use windows::{Note, Window};

mod part;

// What a pass over the text has met: the brackets of the part that wait, the last one on top; how many from behind the part are open inside them;
// and the brackets that are closed, in this order, with the places behind their partners.
// Kept: the places stand in a list of their own, since searches for bodies begin there and take them as a slice.
#[derive(Drop)]
struct Pass<'a> {
    part: Part<'a>,
    inner: usize,
    opens: ArrayVec<u16, 2048>,
    owners: ArrayVec<u16, 2048>,
    starts: ArrayVec<u32, 2048>,
}

impl<'a> Pass<'a> {
    // Where the part begins its first bracket waits.
    fn new(part: Part<'a>) -> Pass<'a>
        ensures part { result.part ≡ part.entry }
        ensures within { Within part.entry.from result }
    {
        let mut opens = ArrayVec::new();
        opens.push(0);
        Pass {
            part,
            inner: 0,
            opens,
            owners: ArrayVec::new(),
            starts: ArrayVec::new(),
        }
    }

    // The bracket on top, if one waits, is closed before a place.
    fn close(&mut self, at: usize)
        requires room { (length self.old.opens.items + length self.old.owners.items ≤ 2048)
            × (length self.old.starts.items ≡ length self.old.owners.items) }
        requires place { at < 4294967296 }
        ensures { Closes at self.old self.new }
    {
        if let Some(index) = self.opens.pop() {
            self.owners.push(index);
            self.starts.push(at as u32);
        }
    }

    // The pass past a byte inside the part. A closing bracket for which none waits closes one from before the part.
    fn byte_inside(&mut self, at: usize)
        requires before { at + 1 < self.old.part.from + self.old.part.many }
        requires within { Within at self.old }
        ensures part { self.new.part ≡ self.old.part }
        ensures within { Within (at + 1) self.new }
    {
        match self.part.text.text[at] {
            b'(' => self.opens.push((at + 1 - self.part.from) as u16),
            b')' => self.close(at + 1),
            _ => {}
        }
    }

    // The pass inside the part, up to its last byte.
    fn inside(&mut self)
        requires { Within self.old.part.from self.old }
        ensures part { self.new.part ≡ self.old.part }
        ensures passed { Passed (self.old.part.from + self.old.part.many - 1) self.new }
    {
        for at in self.part.from..self.part.from + self.part.many - 1 {
            self.byte_inside(at);
        }
    }

    // The pass past a byte behind the part.
    fn byte_behind(&mut self, at: usize)
        requires inside { at < length self.old.part.text.text.now }
        requires passed { Passed at self.old }
        ensures part { self.new.part ≡ self.old.part }
        ensures passed { Passed (at + 1) self.new }
    {
        match self.part.text.text[at] {
            b'(' => self.inner += 1,
            b')' if 0 < self.inner => self.inner -= 1,
            b')' => self.close(at + 1),
            _ => {}
        }
    }

    // The pass from one place up to another, or to one before that where no bracket waits any more.
    fn behind_before(&mut self, from: usize, to: usize) -> usize
        requires further { from < to }
        requires to { to ≤ length self.old.part.text.text.now }
        requires passed { Passed from self.old }
        ensures further { from < result }
        ensures part { self.new.part ≡ self.old.part }
        ensures passed { Passed result self.new }
    {
        for at in from..to {
            self.byte_behind(at);
            if self.opens.is_empty() {
                return at + 1;
            }
        }
        to
    }

    // The pass one turn on from a place: past a chunk in which no bracket that waits is closed, or up to the next one.
    fn turn(&mut self, at: usize) -> usize
        requires inside { at < length self.old.part.text.text.now }
        requires passed { Passed at self.old }
        ensures further { at < result }
        ensures part { self.new.part ≡ self.old.part }
        ensures passed { Passed result self.new }
    {
        match self.part.text.round_past(at, self.inner) {
            Some(inner) => {
                self.inner = inner;
                at + chunks::SIZE
            }
            None => self.behind_before(at, chunks::edge_after(at, self.part.text.text.len())),
        }
    }

    // The pass on from a place. It ends where no bracket waits any more, and those that wait at the end of the text have no partner.
    fn behind(&mut self, from: usize)
        requires { Passed from self.old }
        ensures part { self.new.part ≡ self.old.part }
        ensures unmet { AllUnmet self.new }
        ensures order { InOrder self.new }
    {
        let mut at = from;
        // Kept: a turn is a chunk or a part of one. An iterator of such turns would serve this loop alone.
        while at < self.part.text.text.len() && !self.opens.is_empty() {
            at = self.turn(at);
        }
    }

    // The brackets that have no partner are noted.
    fn note_unmet(&self, w: &mut Window)
        requires unmet { AllUnmet self.now }
        requires telling { Telling self.now.part.text.text.now self.now.part.from w.old }
        ensures { Telling self.now.part.text.text.now self.now.part.from w.new }
    {
        for k in 0..self.opens.len() {
            w.put(usize::from(self.opens[k]), Note::Broken);
        }
    }

    // The brackets that are closed are noted.
    fn note_closed(&self, found: &[Sought; 2048], w: &mut Window)
        requires order { InOrder self.now }
        requires finds { Finds self.now.part.text.text.now self.now.starts.items (length self.now.starts.items) found.now }
        requires telling { Telling self.now.part.text.text.now self.now.part.from w.old }
        ensures { Telling self.now.part.text.text.now self.now.part.from w.new }
    {
        for k in 0..self.owners.len() {
            w.put(
                usize::from(self.owners[k]),
                closed_note(found[k], self.starts[k]),
            );
        }
    }
}

// What is noted of a bracket that is closed before a place, by what the search for a body that begins there finds.
fn closed_note(found: Sought, start: u32) -> Note
    requires { 1 ≤ start }
    ensures { ClosesNote found start result }
{
    let partner = start - 1;
    match found {
        Sought::Nothing => Note::Broken,
        Sought::Brace(brace) => Note::Whole(partner, brace),
        Sought::Unknown | Sought::Ongoing => Note::Closed(partner),
    }
}

// The notes of a part. The searches for bodies begin at places that rise, and are told together.
fn fill_part(part: Part, w: &mut Window)
    requires { Telling part.text.text.now part.from w.old }
    ensures { Telling part.entry.text.text.now part.entry.from w.new }
{
    let mut pass = Pass::new(part);
    pass.inside();
    pass.behind(part.from + part.many - 1);
    pass.note_unmet(w);
    let found = bodies::note_bodies(part.text, &pass.starts);
    pass.note_closed(&found, w);
}

// The notes of the part that begins at a place. In a text with places that a note does not hold none is noted.
pub fn fill(text: TextSums, from: usize, w: &mut Window)
    requires { from < length text.text.now }
    ensures { Noted (NoteTells text.entry.text.now) w.new }
{
    let n = text.text.len();
    if 4294967295 <= n {
        w.clear();
        return;
    }
    w.begin(from);
    fill_part(
        Part {
            text,
            from,
            many: windows::MOST.min(n - from),
        },
        w,
    );
}
