// The defined search: definitions in specs/, the theory of its promises in proofs/. The code that carries it out is the crate walk.
#![tactic(auto)]
