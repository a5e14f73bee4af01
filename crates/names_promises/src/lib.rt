// No code: what is promised of a mending, over records, and the proof.
#![tactic(auto)]
