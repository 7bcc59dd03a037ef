//! Definitions of the formats of files: what an OBJ file gives, line by line, and an ASCII STL file, word by word; and the text of
//! a mesh in each.
#![tactic(auto)]
