// A Program whose names and strings stand at other places: its nestings, its cells, and its code.
#![tactic(auto)]
