// What a report of the harness profile is, in specs/: as elsewhere, but for which list is a reason. Document 02, No. 8. Rests on report and harness_meaning.
#![tactic(auto)]
