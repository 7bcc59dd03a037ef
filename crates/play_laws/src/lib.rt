//! Laws of tasks: a task that follows another is met where both are, from one world to the next, and as well where the first one
//! stopped, or where memory ran out before it; what each task keeps all in order keep; and how far a loop over tasks in order has
//! come.
//!
//! Laws of the program's commands and of scripts: under lawful limits a mesh is read of its text exactly where it is accepted, at
//! points of the grid and within the limits; and whatever the files, each file that a command or a script writes holds the text of
//! a mesh, and the mesh is read of it again.
//!
//! The lemmas stand in `proofs/`, for the crates above to cite.
#![tactic(auto)]
