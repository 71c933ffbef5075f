//! Calls of a store, and what it has then. Written by tools/store_rows.py.

/// The nodes whose outcomes a line `has` gives, `-` marking none.
pub(crate) const NODES: [u64; 6] = [0, 1, 2, 3, 4294967296, 18446744073709551615];

pub(crate) const CALLS: &str = "\
put 2 -20
has - - -20 - - -
put 1 -19
has - -19 -20 - - -
remove 3
has - -19 -20 - - -
put 18446744073709551615 -17
has - -19 -20 - - -17
put 0 -16
has -16 -19 -20 - - -17
remove 0
has - -19 -20 - - -17
put 4294967296 -14
has - -19 -20 - -14 -17
put 0 -13
has -13 -19 -20 - -14 -17
remove 2
has -13 -19 - - -14 -17
put 4294967296 -11
has -13 -19 - - -11 -17
put 0 -10
has -10 -19 - - -11 -17
remove 4294967296
has -10 -19 - - - -17
clear
has - - - - - -
put 0 -7
has -7 - - - - -
remove 0
has - - - - - -
put 3 -5
has - - - -5 - -
put 3 -4
has - - - -4 - -
remove 0
has - - - -4 - -
put 1 -2
has - -2 - -4 - -
put 0 -1
has -1 -2 - -4 - -
remove 4294967296
has -1 -2 - -4 - -
put 3 1
has -1 -2 - 1 - -
put 0 2
has 2 -2 - 1 - -
remove 4294967296
has 2 -2 - 1 - -
put 0 4
has 4 -2 - 1 - -
clear
has - - - - - -
remove 18446744073709551615
has - - - - - -
put 18446744073709551615 7
has - - - - - 7
put 4294967296 8
has - - - - 8 7
remove 0
has - - - - 8 7
put 4294967296 10
has - - - - 10 7
put 4294967296 11
has - - - - 11 7
remove 3
has - - - - 11 7
put 0 13
has 13 - - - 11 7
put 1 14
has 13 14 - - 11 7
remove 0
has - 14 - - 11 7
put 4294967296 16
has - 14 - - 16 7
put 1 17
has - 17 - - 16 7
clear
has - - - - - -
put 3 19
has - - - 19 - -
";
