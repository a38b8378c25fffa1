// What Flehwella promises: proofs/Demands.antt has each sentence as one statement, and no code.
#![tactic(auto)]
