// What is noted of the brackets of a part of a text. Until a part is noted, the searches that go far are counted.
#![tactic(auto)]

ghost use Rattle.std.specs.Prelude.{◌≡◌, ℕ, ◌<◌, set};
ghost use Rattle.windows.specs.Window.{Begins, Kept, noted};
ghost use Rattle.windows.specs.declared.Note.TheVariants.{Nothing};
ghost use Rattle.windows.specs.declared.Stage.TheVariants.{Counting};

// The most places of a part.
pub const MOST: usize = 2048;

// The searches that are made one by one before a part is noted, and the uses of its notes before the next is noted at once.
const FEW: u32 = 16;

// What is noted of the bracket at a place: nothing, that it has no partner or no body behind it, its partner, or also the brace of the body. Places
// are of 32 bits, so that all notes of a part take little room.
#[derive(Clone, Copy)]
pub enum Note {
    Nothing,
    Broken,
    Closed(u32),
    Whole(u32, u32),
}

// How far the notes have come.
#[derive(Clone, Copy)]
enum Stage {
    // searches are counted, the first of which began at a place
    Counting { from: usize, count: u32 },
    // the part that begins at a place is noted, and its notes were of use so often
    Filled { from: usize, used: u32 },
}

// The notes of the places of a part.
#[derive(Clone, Copy)]
pub struct Window {
    stage: Stage,
    notes: [Note; 2048],
}

impl Window {
    // Nothing is noted of any place: no part is begun, and no search is counted.
    pub fn new() -> Window
        ensures nothing { (at : ℕ) → noted result at ≡ Nothing }
        ensures none_counted { result.stage ≡ Counting 0 0 }
    {
        Window {
            stage: Stage::Counting { from: 0, count: 0 },
            notes: [Note::Nothing; 2048],
        }
    }

    // Nothing is noted of any place: no part is begun, and no search is counted. The notes are changed where they stand, since they are large.
    pub fn clear(&mut self)
        ensures nothing { (at : ℕ) → noted self.new at ≡ Nothing }
        ensures none_counted { self.new.stage ≡ Counting 0 0 }
    {
        self.stage = Stage::Counting { from: 0, count: 0 };
    }

    // Counts one more use of the notes of the part, up to the number from which the next part is noted at once.
    pub fn mark_used(&mut self)
        ensures { Kept self.old self.new }
    {
        if let Stage::Filled { from, used } = self.stage {
            self.stage = Stage::Filled {
                from,
                used: FEW.min(used.saturating_add(1)),
            };
        }
    }

    // Counts a search at a place that is long, and tells whether a part that begins there is worth noting. To note a part takes as long as several
    // searches, so sixteen are made one by one first, none of which begins more than a part's length behind the first. Behind a part that was of use
    // as often the next is noted at once.
    pub fn count_search(&mut self, at: usize) -> bool
        ensures { Kept self.old self.new }
    {
        match self.stage {
            Stage::Filled { from, used } => match at.checked_sub(from) {
                Some(i) if i < MOST => return false,
                Some(i) if i < 2 * MOST && FEW <= used => return true,
                _ => {}
            },
            Stage::Counting { from, count } => match at.checked_sub(from) {
                Some(i) if i < MOST && FEW <= count => return true,
                Some(i) if i < MOST => {
                    self.stage = Stage::Counting {
                        from,
                        count: count + 1,
                    };
                    return false;
                }
                _ => {}
            },
        }
        self.stage = Stage::Counting { from: at, count: 1 };
        false
    }

    // The part that begins at a place, of which nothing is noted yet.
    pub fn begin(&mut self, from: usize)
        ensures begins { Begins from self.new }
        ensures nothing { (at : ℕ) → noted self.new at ≡ Nothing }
    {
        self.stage = Stage::Filled { from, used: 0 };
        self.notes = [Note::Nothing; 2048];
    }

    // What is noted of the place with an index is written down.
    pub fn put(&mut self, i: usize, n: Note)
        requires { i < 2048 }
        ensures { self.new ≡ record self.old { notes = set self.old.notes i n } }
    {
        self.notes[i] = n;
    }

    // What is noted of the bracket at a place.
    pub fn noted_at(&self, at: usize) -> Note
        ensures { result ≡ noted self.now at }
    {
        match self.stage {
            Stage::Counting { .. } => Note::Nothing,
            Stage::Filled { from, .. } => match at.checked_sub(from) {
                Some(i) if i < MOST => self.notes[i],
                _ => Note::Nothing,
            },
        }
    }
}
