//! Changes of what operations give, with what an audit then says.
//!
//! A row stands for a pair of the tables of solids and of loose parts, in their order: the answer, none where the change leaves
//! no closed mesh, and then how the outcome is changed, by a word and numbers from 0. The first words change the prescribed
//! vertices: `kept`, `crossings`, `halfedges` one count by one; `origins`, `places` exchange two of them; `less`, `more` leave
//! out the last one or repeat it; `place` moves one. `from` and `source` put a number into a list, `froms` and `sources`
//! exchange two, `_less` and `_more` take one off or add one. `turn`, `flip`, `drop`, `double` change a triangle, `diagonal` puts
//! the other diagonal into two with a common edge, `exchange` and `triples` change the order of two, with their source faces or
//! without; `step` moves a point, `rename` and `vertices` exchange the names of two, with their points or without, `join` makes
//! one of two; `first` puts the first mesh in place of the result, `twice` repeats it, `whole_back` turns its order round.
//! `forced` adds one to the forced triangles, and `same` changes nothing.
//! The answers are those of an independent program of the same definitions, which compares all sums pair by pair.
pub const CHANGES: &str = "\
yes same
yes forced
no kept 1
no crossings
no halfedges
no origins 11 0
yes places 7 12
no less
no more
no place 7
no from 0 8
no froms 15 7
no from_less
no from_more 3
no source 34 21
no sources 0 3
no first
no twice
yes whole_back
yes same
yes forced
no kept 1
no crossings
no halfedges
no origins 2 1
no places 12 5
no less
no more
no place 2
yes from 2 2
yes froms 0 0
no from_less
no from_more 6
no source 13 12
no sources 10 6
no source_less
no source_more 17
yes turn 13
none flip 2
none drop 6
no double 12
yes exchange 9 0
no triples 23 26
no step 1
yes rename 4 8
no vertices 2 10
none join 9 19
yes first
no twice
yes whole_back
yes same
yes forced
no kept 0
no crossings
no halfedges
no origins 4 5
yes places 11 5
no less
no more
no place 2
no from 9 4294967295
no froms 11 5
no from_less
no from_more 2
yes source 15 15
no sources 4 0
no source_less
no source_more 11
yes turn 6
none flip 0
none drop 6
no double 5
yes exchange 12 18
no triples 0 14
no step 0
yes rename 22 5
no vertices 9 3
no join 3 7
no first
no twice
yes whole_back
yes same
yes forced
no kept 1
no crossings
no halfedges
no origins 5 8
no places 11 16
no less
no more
no place 8
no first
no twice
yes whole_back
yes same
yes forced
no kept 1
no crossings
no halfedges
no origins 1 5
no places 4 0
no less
no more
no place 6
no from 2 25
no froms 2 5
no from_less
no from_more 4
no source 2 12
no sources 5 2
no source_less
no source_more 2
yes turn 19
none flip 30
none drop 5
no double 3
yes exchange 0 4
no triples 34 25
no step 1
yes rename 7 19
no vertices 11 8
none join 7 10
no first
no twice
yes whole_back
yes same
yes forced
no kept 1
no crossings
no halfedges
no origins 1 0
no places 0 7
no less
no more
no place 10
no from 6 18
no froms 13 3
no first
no twice
yes whole_back
yes same
yes forced
no kept 0
no crossings
no halfedges
no origins 3 2
no first
no twice
yes whole_back
yes same
yes forced
no kept 0
no crossings
no halfedges
no origins 1 13
yes places 9 4
no less
no more
no place 7
no from 5 16
no first
no twice
yes whole_back
yes same
yes forced
no kept 1
no crossings
no halfedges
no origins 8 9
no places 7 6
no less
no more
no place 2
no from 0 4294967295
no froms 5 2
no from_less
no from_more 2
no source 15 16
no sources 4 22
no source_less
no source_more 1
yes turn 24
no first
no twice
yes whole_back
yes same
yes forced
no kept 1
no crossings
no halfedges
yes origins 2 2
no places 13 7
no less
no more
no place 8
no from 11 12
no froms 20 5
no from_less
no from_more 18
no source 0 14
";
