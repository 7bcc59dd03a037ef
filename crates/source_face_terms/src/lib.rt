//! Definitions of the segments of each source face, the starts and the ends of its lists, paired along an edge or on the line in
//! which two faces cross; and of the fillings of source faces, and what copies they can be made from.
#![tactic(auto)]
