#![tactic(auto)]

// The rows of paper 01 and the faults of the ladder as examples of the definitions, computed by the checker: specs/ has the table, proofs/ its
// theorem. Nothing rests on them.
