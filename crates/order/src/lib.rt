// Theory alone: that the order of insertion does not matter to what is held, nor to any answer (proofs/AnyOrder, proofs/SameSets).
#![tactic(auto)]
