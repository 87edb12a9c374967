// What a check-sat is told: a negated equality before it is broken exactly when the equations before it make its two terms equal in every congruence. Mathematics alone, in
// proofs/, with no code. Document 02, No. 4. Rests on meaning, script_terms and script_meaning.
#![tactic(auto)]
