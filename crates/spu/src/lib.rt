// Every call on a state: its definition, its refusals, and what holds for all of them. The calls themselves are in the crates above.
#![tactic(auto)]
