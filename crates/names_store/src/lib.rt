// Rows of the lent tables as they are changed, and the notes that say of each entry whether its directory is visible.
#![tactic(auto)]
