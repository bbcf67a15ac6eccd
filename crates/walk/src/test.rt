// The test of a candidate: a walk of its own from the root.
ghost use Rattle.std.specs.Prelude.{◌≡◌, map, ◌≤◌, ◌<◌, ◌^◌};
ghost use Rattle.sheet.specs.Literals.{literal};

use crate::node::{closed, part_of};
use prepare::clauses::Literals;
use prepare::network::Network;

/// How a test ended, with the steps so far: it found no full node, or one with this part, or the steps were spent.
#[derive(Clone, Copy, Debug, PartialEq, Eq)]
pub enum Tried {
    Missed(u64),
    Found(u64, u64),
    Spent(u64),
}

/// The test of a candidate: its part, what may not be true, and the allowance of steps.
#[derive(Clone, Copy, Debug)]
pub struct Test<'a> {
    pub network: Network<'a>,
    pub ban: Literals,
    pub candidate: u64,
    pub allowance: u64,
    // So it is with every pair of words; said of the ban, it is known behind `&self` too, where the logic tells nothing of a number's range.
    pub ghost words: { (ban.plains < 2 ^ 64) × (ban.negated < 2 ^ 64) },
}

impl<'a> Test<'a> {
    ghost use Rattle.walk.specs.Carried.{meet_part, told, steps_of, TellsTest};

    /// The test of a candidate, with any two words as its ban.
    pub fn new(network: Network<'a>, ban: Literals, candidate: u64, allowance: u64) -> Test<'a>
        ensures network { result.network ≡ network.entry }
        ensures ban { result.ban ≡ ban }
        ensures candidate { result.candidate ≡ candidate }
        ensures allowance { result.allowance ≡ allowance }
    {
        Test {
            network,
            ban,
            candidate,
            allowance,
        }
    }

    /// A full node of the test: it is found if its part strictly contains the candidate's.
    fn meet(&self, model: u64, steps: u64) -> Tried
        ensures { (told result ≡ meet_part (map literal self.now.network.objectives.bytes.now) self.now.candidate model steps) × (steps_of result ≡ steps) }
    {
        let found = part_of(self.network.objectives, model);
        if words::strictly_within(self.candidate, found) {
            return Tried::Found(steps, found);
        }
        Tried::Missed(steps)
    }

    /// The test below a node: no literal of the ban may be true.
    pub fn seek(&self, depth: usize, node: Literals, steps: u64) -> Tried
        ensures tells_test { TellsTest self.now depth node steps result }
        ensures steps_bound { steps ≤ steps_of result }
    {
        if self.allowance <= steps {
            return Tried::Spent(steps);
        }
        let visited = steps + 1;
        if closed(self.network.clauses, self.ban, node) {
            return Tried::Missed(visited);
        }
        if self.network.order.bytes.len() <= depth {
            return self.meet(node.plains, visited);
        }
        let l = self.network.order.at(depth);
        match self.seek(depth + 1, node.with(l), visited) {
            Tried::Missed(then) => self.seek(depth + 1, node.with(l.complement()), then),
            ended => ended,
        }
    }
}
