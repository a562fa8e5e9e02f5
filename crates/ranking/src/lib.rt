// The functions over the limits, one after another in an order: a tournament of their numbers, so that each next one costs only the matches on one
// path.
// With n functions the node n + k is the leaf of function k, and node i, from 1 to n - 1, holds the winner of 2 i and 2 i + 1.
// Kept: in a node the number n stands for none, since an option of a number takes twice the two bytes, and the nodes are an array of fixed length.
#![tactic(auto)]

ghost use Rattle.std.specs.Prelude.{◌≡◌, ℕ, ◌+◌, ◌*◌, ◌≤◌, ◌<◌, List, [], ◌∷◌, length, get_or, MatchOption};
ghost use Rattle.text_rules.specs.Bytes.{same};
ghost use Rattle.gate_rules.specs.Gate.{gate};
ghost use Rattle.gate_rules.specs.Scan.{functions_of};
ghost use Rattle.functions.specs.Shown.{limits_of, shown};
ghost use Rattle.ranking.specs.Ranks.{Entered, Next, Played, PlayedBut, Settled, Takes, Wins, at_start, goes_before, listed, number_of, to_take};

use functions::{Function, Functions, Limits};
use std::marker::Model;

// An order of functions: which of two goes first.
pub trait Rank {
    ghost use Rattle.std.specs.Prelude.{◌≡◌, Bool};
    ghost use Rattle.text_rules.specs.ByteOrder.{Orders};
    ghost use Rattle.gate_rules.specs.Functions.{Fun};
    ghost use Rattle.functions.specs.Shown.{shown};
    ghost use Rattle.ranking.specs.Ranks.{decided};

    ghost less: { Fun → Fun → Bool };

    ghost orders: { Orders less };

    // f goes before g. Where neither is less, the earlier one does.
    fn first(&self, f: Function, g: Function, earlier: bool) -> bool
        ensures { result ≡ decided less (shown f.entry) (shown g.entry) earlier };

    // The same for two functions with one path, which needs no look at it. An order that gains nothing by that leaves this to `first`.
    fn first_of_one_path(&self, f: Function, g: Function, earlier: bool) -> bool
        requires { f.path.now ≡ g.path.now }
        ensures { result ≡ decided less (shown f.entry) (shown g.entry) earlier }
    {
        self.first(f, g, earlier)
    }
}

// Whether two functions have the same path.
fn same_path(f: Function, g: Function) -> bool
    ensures { result ≡ same f.entry.path.now g.entry.path.now }
{
    order::same_bytes(f.path, g.path)
}

// Update's order: by path, and where the paths are the same by name. Where these are the same too the earlier one goes first.
#[derive(Clone, Copy)]
pub struct ByKey;

impl Rank for ByKey {
    ghost use Rattle.gate_rules.specs.Update.{row_before};
    ghost use Rattle.gate_rules.proofs.RowOrders.{row_orders};

    ghost less = { row_before };

    ghost orders = { row_orders };

    fn first(&self, f: Function, g: Function, earlier: bool) -> bool {
        if !same_path(f, g) {
            return order::before(f.path, g.path);
        }
        self.first_of_one_path(f, g, earlier)
    }

    fn first_of_one_path(&self, f: Function, g: Function, earlier: bool) -> bool {
        if !order::same_bytes(f.name, g.name) {
            return order::before(f.name, g.name);
        }
        earlier
    }
}

// The report's order: by cyclomatic falling, and where it is the same by path. Where that is the same too the earlier one goes first.
#[derive(Clone, Copy)]
pub struct Worst;

impl Rank for Worst {
    ghost use Rattle.gate_rules.specs.Report.{worse};
    ghost use Rattle.gate_rules.proofs.RowOrders.{worse_orders};

    ghost less = { worse };

    ghost orders = { worse_orders };

    fn first(&self, f: Function, g: Function, earlier: bool) -> bool {
        if f.cyclomatic != g.cyclomatic {
            return g.cyclomatic < f.cyclomatic;
        }
        if !same_path(f, g) {
            return order::before(f.path, g.path);
        }
        earlier
    }

    fn first_of_one_path(&self, f: Function, g: Function, earlier: bool) -> bool {
        if f.cyclomatic == g.cyclomatic {
            return earlier;
        }
        g.cyclomatic < f.cyclomatic
    }
}

// A tournament of the functions: who wins its matches.
#[derive(Drop)]
struct Tournament<'a, R: Rank> {
    rank: R,
    functions: Functions<'a>,
}

impl<'a, R: Rank> Tournament<'a, R> {
    // The function j goes before the function k.
    fn goes_first(&self, j: usize, k: usize) -> bool
        requires { (j < self.now.functions.count) × (k < self.now.functions.count) }
        ensures { result ≡ goes_before R.less R.orders self.now.functions.tree.now j k }
    {
        let f = self.functions.get(j);
        let g = self.functions.get(k);
        let earlier = j < k;
        if self.functions.in_one_file(j, k) {
            return self.rank.first_of_one_path(f, g, earlier);
        }
        self.rank.first(f, g, earlier)
    }

    // The winner of two: who is there, and of two that are there the one that goes first.
    fn winner(&self, l: usize, r: usize) -> usize
        requires { (l ≤ self.now.functions.count) × (r ≤ self.now.functions.count) }
        ensures { (result ≤ self.now.functions.count) × Wins R.less R.orders self.now.functions.tree.now result l r }
    {
        let n = self.functions.count;
        if l == n {
            return r;
        }
        if r == n {
            return l;
        }
        if self.goes_first(r, l) {
            return r;
        }
        l
    }

    // The match of the node i.
    fn play(&self, nodes: &mut [u16; 16384], i: usize)
        requires { (2 * self.now.functions.count ≤ length nodes.old)
            × (1 ≤ i)
            × (i < self.now.functions.count)
            × (get_or nodes.old (2 * i) 0 ≤ self.now.functions.count)
            × (get_or nodes.old (2 * i + 1) 0 ≤ self.now.functions.count) }
        ensures { Played R.less R.orders self.now.functions.tree.now i nodes.old nodes.new }
    {
        let l = usize::from(nodes[2 * i]);
        let r = usize::from(nodes[2 * i + 1]);
        nodes[i] = self.winner(l, r) as u16;
    }

    // All matches, from the leaves to the node 1.
    fn play_all(&self, nodes: &mut [u16; 16384])
        requires { (2 * self.now.functions.count ≤ length nodes.old)
            × ((j : ℕ) → self.now.functions.count ≤ j → j < 2 * self.now.functions.count → get_or nodes.old j 0 ≤ self.now.functions.count) }
        ensures { Settled R.less R.orders self.now.functions.tree.now nodes.new
            × ((j : ℕ) → self.now.functions.count ≤ j → get_or nodes.new j 0 ≡ get_or nodes.old j 0) }
    {
        for i in (1..self.functions.count).rev() {
            self.play(nodes, i);
        }
    }

    // The matches of a path: that of the node `from`, and of those above it.
    fn play_path(&self, nodes: &mut [u16; 16384], from: usize)
        requires { (from < self.now.functions.count) × PlayedBut R.less R.orders self.now.functions.tree.now from nodes.old }
        ensures { Settled R.less R.orders self.now.functions.tree.now nodes.new
            × ((j : ℕ) → self.now.functions.count ≤ j → get_or nodes.new j 0 ≡ get_or nodes.old j 0) }
    {
        // Kept: each turn goes to half the number, which no range counts.
        let mut i = from;
        while 0 < i {
            self.play(nodes, i);
            i /= 2;
        }
    }
}

// The leaves: each function over the limits.
fn set_leaves(functions: Functions, limits: Limits, nodes: &mut [u16; 16384])
    requires { 2 * functions.count ≤ length nodes.old }
    ensures { (length nodes.new ≡ length nodes.old)
        × Entered (limits_of limits) functions.entry.tree.now functions.entry.count nodes.new }
{
    let n = functions.count;
    for k in 0..n {
        let leaf = if functions.get(k).is_over(limits) {
            k
        } else {
            n
        };
        nodes[n + k] = leaf as u16;
    }
}

// The functions over the limits, in an order, that are still to take. Clauses see all functions, the limits, and how many are taken.
#[derive(Drop)]
pub struct Ranking<'a, R: Rank> {
    tournament: Tournament<'a, R>,
    limits: Limits,
    nodes: [u16; 16384],
    // how many are taken
    taken: usize,
}

impl<'a, R: Rank> Model for Ranking<'a, R> {
    ghost use Rattle.ranking.specs.Ranks.{Standing};

    ghost Value = { Standing };

    ghost use Rattle.ranking.specs.Taking.{Taking, standing};

    ghost view = { standing };

    ghost invariant = { Taking R.less R.orders };
}

impl<'a, R: Rank> Ranking<'a, R> {
    // None is taken yet.
    // Kept: functions and limits are two parameters, here and where rows are counted and written. The definitions take them one by one, as `listed`
    // does, and a struct of both would be taken apart at each use.
    pub fn new(rank: R, functions: Functions<'a>, limits: Limits) -> Ranking<'a, R>
        ensures start { result ≡ at_start (limits_of limits) (functions_of gate functions.entry.tree.now) }
        ensures all_left { to_take R.less R.orders result ≡ listed R.less R.orders (limits_of limits) (functions_of gate functions.entry.tree.now) }
    {
        let mut nodes = [0u16; 16384];
        set_leaves(functions, limits, &mut nodes);
        let tournament = Tournament { rank, functions };
        tournament.play_all(&mut nodes);
        Ranking {
            tournament,
            limits,
            nodes,
            taken: 0,
        }
    }

    // The number of the first of those that are still to take, which is taken.
    pub fn next_number(&mut self) -> Option<usize>
        ensures number { Next R.less R.orders self.old (number_of self.old result) self.new }
        ensures taken { Takes R.less R.orders self.old result self.new }
    {
        let n = self.tournament.functions.count;
        let first = usize::from(self.nodes[1]);
        if n <= first {
            return None;
        }
        let leaf = n + first;
        self.nodes[leaf] = n as u16;
        self.tournament.play_path(&mut self.nodes, leaf / 2);
        self.taken += 1;
        Some(first)
    }

    // The functions may be lent anew between two calls: the ranking goes on over the new loan.
    pub fn with_functions<'b>(self, functions: Functions<'b>) -> Ranking<'b, R>
        requires { functions_of gate functions.tree.now ≡ self.all }
        ensures { result ≡ self.entry }
    {
        let rank = self.tournament.rank;
        Ranking {
            tournament: Tournament { rank, functions },
            limits: self.limits,
            nodes: self.nodes,
            taken: self.taken,
        }
    }
}

impl<'a, R: Rank + Copy> Ranking<'a, R> {
    // Where the order is a value, a listing may be gone on with twice from where it stands.
    pub fn copied(&self) -> Ranking<'a, R>
        ensures { result ≡ self.now }
    {
        let tournament = Tournament { ..self.tournament };
        Ranking {
            tournament,
            ..*self
        }
    }
}

impl<'a, R: Rank + Drop> Iterator for Ranking<'a, R> {
    type Item = Function<'a>;

    ghost use Rattle.std.specs.Iterator.{YieldsFirstBy, item_count};
    ghost use Rattle.functions.specs.Shown.{shown};
    ghost use Rattle.ranking.specs.Ranks.{to_take};

    // The first of those that are still to take, which is taken.
    ghost next_gives = { YieldsFirstBy shown (to_take R.less R.orders) };

    ghost remaining = { item_count (to_take R.less R.orders) };

    fn next(&mut self) -> Option<Function<'a>> {
        let number = self.next_number()?;
        Some(self.tournament.functions.get(number))
    }
}

#[cfg(test)]
mod tests {
    use super::{ByKey, Rank};
    use functions::Function;

    // An order that has `first` alone.
    #[derive(Clone, Copy)]
    struct Plain;

    impl Rank for Plain {
        ghost use Rattle.gate_rules.specs.Update.{row_before};
        ghost use Rattle.gate_rules.proofs.RowOrders.{row_orders};

        ghost less = { row_before };

        ghost orders = { row_orders };

        fn first(&self, f: Function, g: Function, earlier: bool) -> bool {
            ByKey.first(f, g, earlier)
        }
    }

    // Such an order puts two functions with one path as it puts any two.
    #[test]
    fn first_alone(rt: HostRuntime) {
        let f = Function {
            path: b"a.rs",
            name: b"one",
            line: 1,
            lines: 1,
            cyclomatic: 1,
            nesting: 0,
            params: 0,
        };
        let g = Function { name: b"two", ..f };
        assert!(rt; Plain.first_of_one_path(f, g, false));
        assert!(rt; !Plain.first_of_one_path(g, f, true));
        assert!(rt; Plain.first_of_one_path(f, f, true));
        assert!(rt; !Plain.first_of_one_path(f, f, false));
    }
}
