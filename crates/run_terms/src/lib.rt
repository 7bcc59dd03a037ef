//! What a run touches and does: files by name, bytes written, counts of faults; tasks, which are actions by the files with a
//! value or a refusal, one after the other; and what a call owes to its task.
#![tactic(auto)]
