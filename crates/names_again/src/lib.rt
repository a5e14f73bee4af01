// No code: what is promised of the calls that mend, over the lent bytes and by the climb, and the proof.
#![tactic(auto)]
