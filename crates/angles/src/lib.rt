// Angle brackets that are open while some searches go on, in groups. A search is inside those that were opened since it began, and how many these
// are is told for all searches together.
#![tactic(auto)]

ghost use Rattle.std.specs.Prelude.{◌≡◌, ℕ, ◌+◌, ◌-◌, ◌≤◌, ◌<◌, ◌∷◌, Some, MatchOption, OnSome};
ghost use Rattle.arrayvec.specs.ArrayVec.{array_vec_len};
ghost use Rattle.source_rules.specs.Finding.{angle_after};
ghost use Rattle.angles.specs.Angles.{IsBehind, last_of, less, more, others_of, resized};
ghost use Rattle.angles.specs.Groups.{Stands, Turns, above_in, boundary_in, groups_of};

use arrayvec::ArrayVec;

// The brackets that were opened while as many searches had begun: how many searches these are, and how many of the brackets are open.
#[derive(Clone, Copy, Default)]
pub struct Group {
    begun: u16,
    size: u32,
}

// The groups that are not empty, the last one on top.
#[derive(Drop)]
pub struct Groups {
    groups: ArrayVec<Group, 2049>,
}

impl Groups {
    // No bracket is open.
    pub fn new() -> Groups
        ensures { (at : ℕ) → Stands result 0 at }
    {
        Groups {
            groups: ArrayVec::new(),
        }
    }

    // The last group.
    fn top(&self) -> Option<Group>
        ensures value { result ≡ last_of (groups_of self.now) }
        ensures some { OnSome result (0 < array_vec_len self.now.groups) }
    {
        self.groups.last().copied()
    }

    // The last group, if no search has begun since it began.
    fn own(&self, next: usize) -> Option<Group>
        ensures { MatchOption result (IsBehind next (groups_of self.now)) (λ g. (last_of (groups_of self.now) ≡ Some g) × (g.begun ≡ next)) }
    {
        let g = self.top()?;
        if usize::from(g.begun) == next {
            Some(g)
        } else {
            None
        }
    }

    // The last group is gone.
    fn pop(&mut self)
        ensures others { groups_of self.new ≡ others_of (groups_of self.old) }
        ensures fewer { array_vec_len self.new.groups ≡ array_vec_len self.old.groups - 1 }
    {
        self.groups.pop();
    }

    // The last group has another size.
    fn resize(&mut self, size: u32)
        ensures { groups_of self.new ≡ resized size (groups_of self.old) }
    {
        if let Some(g) = self.groups.last_mut() {
            g.size = size;
        }
    }

    // A group behind the others.
    fn push(&mut self, g: Group)
        requires room { array_vec_len self.old.groups < 2049 }
        ensures { groups_of self.new ≡ g ∷ groups_of self.old }
    {
        self.groups.push(g);
    }

    // Searches that began before it are inside an angle bracket that is open, and no others.
    pub fn boundary(&self) -> usize
        ensures { result ≡ boundary_in self.now }
    {
        match self.top() {
            Some(g) => usize::from(g.begun),
            None => 0,
        }
    }

    // Some brackets are opened. They belong to the last group if no search has begun since that one began.
    pub fn open(&mut self, n: usize, next: usize, at: usize)
        requires few { at + n ≤ 4294967292 }
        requires stands { Stands self.old next at }
        ensures { Turns (more n) next (at + n) self.old self.new }
    {
        if n == 0 {
            return;
        }
        match self.own(next) {
            Some(g) => self.resize(g.size + n as u32),
            None => self.push(Group {
                begun: next as u16,
                size: n as u32,
            }),
        }
    }

    // Some brackets are closed, those of the last group first. A group of which all are closed is gone.
    pub fn close(&mut self, n: usize)
        ensures { (next at : ℕ) → Stands self.old next at → Turns (less n) next at self.old self.new }
    {
        let mut left = n;
        // Kept: each turn takes the last group off or makes it smaller, so no `for` can hold the groups.
        while let Some(g) = self.top() {
            let size = g.size as usize;
            if left < size {
                self.resize((size - left) as u32);
                return;
            }
            left -= size;
            self.pop();
        }
    }

    // A byte stands behind the groups. A `>` closes the last bracket that is open.
    pub fn pass(&mut self, b: u8, next: usize, at: usize)
        requires small { at < 4294967292 }
        requires stands { Stands self.old next at }
        ensures { Turns (angle_after b) next (at + 1) self.old self.new }
    {
        match b {
            b'<' => self.open(1, next, at),
            b'>' => self.close(1),
            _ => {}
        }
    }

    // So many angle brackets are open at least for each search that has begun.
    pub fn least(&self, next: usize, at: usize) -> usize
        requires { Stands self.now next at }
        ensures { (i : ℕ) → i < next → result ≤ above_in self.now i }
    {
        match self.own(next) {
            Some(g) => g.size as usize,
            None => 0,
        }
    }
}
