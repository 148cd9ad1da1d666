// Document 01's edges marked [P], as one table over the definitions: specs/Edges.antt. There is no code here.
#![tactic(auto)]
