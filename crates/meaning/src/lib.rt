// What sentences mean, what code they have, and that the run of the one is the other.
#![tactic(auto)]
