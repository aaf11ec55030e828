// The ledger of document 01, an account kept beside the engine from what an onlooker is told of each command, and
// demand 3: after every list of commands the engine agrees with it. The definitions stand in specs/, to be read in the
// order of specs/Lib.antt, the theorem in proofs/Demand3.antt; nothing runs here.
#![tactic(auto)]
