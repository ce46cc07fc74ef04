// The machine's rules: definitions and what is proved of them; the machine itself is in machine.
#![tactic(auto)]
