// Terms over declared symbols, how they are curried and flattened into records, and that the records mean what the terms mean: mathematics alone, in specs/ and
// proofs/, with no code. Document 02, No. 4. Rests on meaning.
#![tactic(auto)]
