// The sentences of O: definitions and what is proved of them; the reader itself is in the compiler.
#![tactic(auto)]
