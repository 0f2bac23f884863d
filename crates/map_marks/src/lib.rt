// A map of won positions, for every call that writes one: the answer of such a call. The map's rows are told in specs/Marks.antt, the law is in
// proofs/Marks.antt.
#![tactic(auto)]
