// No code: what is promised of a dump fed in pieces, and the proof.
#![tactic(auto)]
