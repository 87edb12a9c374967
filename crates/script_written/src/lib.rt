// The job that a script becomes is always a job. Definitions and mathematics alone: specs/ and proofs/. Document 02, No. 4; document 01, "The job and the report". Rests on
// script_meaning and job_field.
#![tactic(auto)]
