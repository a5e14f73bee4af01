// No code: what is promised of lists of `lfsck_run` calls and of rows stored as `lfsck_step_writes` names them, and the proofs.
#![tactic(auto)]
