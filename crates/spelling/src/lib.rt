// How each lexeme is always written, and that a text written out one way has the same lexemes.
#![tactic(auto)]
