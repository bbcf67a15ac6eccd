// The candidate walk, and what a candidate does.
ghost use Rattle.std.specs.Prelude.{◌≡◌, ◌∷◌, map, ◌≤◌, ◌<◌, length, None as none};
ghost use Rattle.words.specs.Lists.{any, pick};
ghost use Rattle.words.specs.Positions.{strictly_within};
ghost use Rattle.sheet.specs.Enums.{lit};
ghost use Rattle.sheet.specs.Literals.{literal, complement as complement_of};
ghost use Rattle.search.specs.Models.{holds as is_true};
ghost use Rattle.walk.specs.Carried.{steps_of, InBounds, Onward, TellsSettled, TellsJudged, TellsRoamed, TellsSearched};
ghost use Rattle.prepare.specs.Carried.{sets_of};

use crate::node::{closed, holds, part_of};
use crate::test::{Test, Tried};
use prepare::clauses::Literals;
use prepare::network::Network;
use sheet::literal::{Literal, LiteralBytes};

/// Why the candidate walk has ended: yes, by this model; the steps are spent; or a part has no place in the store.
#[derive(Clone, Copy, Debug, PartialEq, Eq)]
pub enum Ending {
    Affirmed(u64),
    Exhausted,
    Full,
}

/// How far the candidate walk is, and why it has ended, if it has. The stored parts stand in the first places of the lent store.
// The document has the counts in the result. A struct that held the store too would have to promise at every call of the recursion that it still lends the same
// places, as `prepare::order::Order` has to, which is no plainer.
#[derive(Clone, Copy, Debug, PartialEq, Eq)]
pub struct Walked {
    pub steps: u64,
    pub tests: u64,
    pub stored: usize,
    pub ending: Option<Ending>,
}

/// The candidate walk for a question: what may not be true, and the allowance of steps.
#[derive(Clone, Copy, Debug)]
pub struct Search<'a> {
    pub network: Network<'a>,
    pub question: Literal,
    pub ban: Literals,
    pub allowance: u64,
}

/// The literals that may not be true in the test of a model: the question, and the complement of each objective that the model satisfies.
fn ban_of(objectives: LiteralBytes, model: u64, question: Literal) -> Literals
    ensures { result ≡ sets_of (map complement_of (complement_of (lit question) ∷ pick (is_true model) (map literal objectives.entry.bytes.now))) }
{
    let mut ban = Literals::default();
    for &b in objectives.bytes.iter().rev() {
        let l = Literal::of(b);
        if holds(model, l) {
            ban = ban.with(l.complement());
        }
    }
    ban.with(question)
}

/// Whether a part lies strictly within one of the stored parts, the newest first.
fn passed_over(stored: &[u64], part: u64) -> bool
    ensures { result ≡ any (λ p. strictly_within part p) stored.now }
{
    stored
        .iter()
        .rev()
        .any(|&p| words::strictly_within(part, p))
}

/// How the candidate walk goes on after the test of a model, which has been counted.
fn settle(tried: Tried, model: u64, w: Walked, store: &mut [u64]) -> Walked
    requires { (w.tests ≤ steps_of tried) × (w.stored ≤ length store.old) }
    ensures tells_settled { TellsSettled tried model w result store.old store.new }
    ensures onward { Onward w.stored result store.old store.new }
{
    match tried {
        Tried::Missed(steps) => Walked {
            steps,
            ending: Some(Ending::Affirmed(model)),
            ..w
        },
        Tried::Found(steps, part) => {
            if w.stored < store.len() {
                store[w.stored] = part;
                return Walked {
                    steps,
                    stored: w.stored + 1,
                    ending: None,
                    ..w
                };
            }
            Walked {
                steps,
                ending: Some(Ending::Full),
                ..w
            }
        }
        Tried::Spent(steps) => Walked {
            steps,
            ending: Some(Ending::Exhausted),
            ..w
        },
    }
}

impl Search<'_> {
    /// What a candidate does: the model of a full node that has been visited.
    fn judge(&self, model: u64, w: Walked, store: &mut [u64]) -> Walked
        requires { (w.tests < w.steps) × ((w.stored ≤ length store.old) × (w.ending ≡ none)) }
        ensures tells_judged { TellsJudged self.now model w result store.old store.new }
        ensures onward { Onward w.stored result store.old store.new }
    {
        let network = self.network;
        let part = part_of(network.objectives, model);
        if passed_over(&store[..w.stored], part) {
            return w;
        }
        let ban = ban_of(network.objectives, model, self.question);
        let test = Test::new(network, ban, part, self.allowance);
        let tried = test.seek(0, Literals::default(), w.steps);
        let tested = Walked {
            tests: w.tests + 1,
            ..w
        };
        settle(tried, model, tested, store)
    }

    /// The candidate walk below a node: no literal of the ban may be true.
    pub fn roam(&self, depth: usize, node: Literals, w: Walked, store: &mut [u64]) -> Walked
        requires { (InBounds w store.old) × (w.ending ≡ none) }
        ensures tells_roamed { TellsRoamed self.now depth node w result store.old store.new }
        ensures onward { Onward w.stored result store.old store.new }
    {
        if self.allowance <= w.steps {
            return Walked {
                ending: Some(Ending::Exhausted),
                ..w
            };
        }
        let visited = Walked {
            steps: w.steps + 1,
            ..w
        };
        if closed(self.network.clauses, self.ban, node) {
            return visited;
        }
        if self.network.order.bytes.len() <= depth {
            return self.judge(node.plains, visited, store);
        }
        let l = self.network.order.at(depth);
        let first = self.roam(depth + 1, node.with(l), visited, store);
        match first.ending {
            None => self.roam(depth + 1, node.with(l.complement()), first, store),
            Some(_) => first,
        }
    }
}

/// The whole candidate walk, from the root.
pub fn walk_all(network: Network, question: Literal, allowance: u64, store: &mut [u64]) -> Walked
    ensures tells_searched { TellsSearched network.entry question allowance result store.old store.new }
    ensures onward { Onward 0 result store.old store.new }
{
    let root = Literals::default();
    let search = Search {
        network,
        question,
        ban: root.with(question.complement()),
        allowance,
    };
    let start = Walked {
        steps: 0,
        tests: 0,
        stored: 0,
        ending: None,
    };
    search.roam(0, root, start, store)
}
