//! Netlists, results and logs.

pub(crate) const AND: &[u8] = b"INPUT(a)\nINPUT(b)\nOUTPUT(z)\nz=AND(a,b)\n";

pub(crate) const AND_RESULT: &[u8] =
    b"diatest 1 2 1 7\nbudget 4 64 2000\npattern 00\npattern 10\npattern 01\npattern 11\nsame 3 1 C\nsame 5 1 C\nclass 0 - -\nclass 1 0 0\nclass 2 0 1\nclass 3 0 2\nclass 4 0 3\nmember 0 0 rep\nmember 1 4 rep\nmember 2 3 rep\nmember 3 4 equal\nmember 4 2 rep\nmember 5 4 equal\nmember 6 1 rep\nend\n";

pub(crate) const C17: &[u8] =
    b"# c17\nINPUT(1)\nINPUT(2)\nINPUT(3)\nINPUT(6)\nINPUT(7)\n\nOUTPUT(22)\nOUTPUT(23)\n\n10 = NAND(1, 3)\n11 = NAND(3, 6)\n16 = NAND(2, 11)\n19 = NAND(11, 7)\n22 = NAND(10, 16)\n23 = NAND(16, 19)\n";

/// A result of c17 with eleven patterns.
pub(crate) const C17_RESULT: &[u8] =
    b"diatest 1 5 2 35\nbudget 4 64 2000\npattern 00000\npattern 10000\npattern 01000\npattern 00100\npattern 10100\npattern 01100\npattern 01010\npattern 00110\npattern 01110\npattern 00001\npattern 00111\nsame 7 1 C\nsame 11 9 C\nsame 16 1 C\nsame 18 9 C\nsame 19 3 C\nsame 21 13 C\nsame 24 3 C\nsame 25 15 C\nsame 29 27 C\nsame 30 13 C\nsame 32 15 C\nsame 34 27 C\nclass 0 - -\nclass 1 0 0\nclass 2 0 0\nclass 3 0 0\nclass 4 0 1\nclass 5 0 2\nclass 6 0 2\nclass 7 0 2\nclass 8 0 3\nclass 9 0 4\nclass 10 6 4\nclass 11 0 5\nclass 12 0 6\nclass 13 4 6\nclass 14 1 7\nclass 15 2 7\nclass 16 0 8\nclass 17 9 8\nclass 18 0 9\nclass 19 5 9\nclass 20 7 9\nclass 21 0 10\nclass 22 16 10\nmember 0 0 rep\nmember 1 9 rep\nmember 2 8 rep\nmember 3 5 rep\nmember 4 1 rep\nmember 5 17 rep\nmember 6 4 rep\nmember 7 9 equal\nmember 8 13 rep\nmember 9 16 rep\nmember 10 12 rep\nmember 11 16 equal\nmember 12 11 rep\nmember 13 18 rep\nmember 14 2 rep\nmember 15 3 rep\nmember 16 9 equal\nmember 17 19 rep\nmember 18 16 equal\nmember 19 5 equal\nmember 20 22 rep\nmember 21 18 equal\nmember 22 21 rep\nmember 23 14 rep\nmember 24 5 equal\nmember 25 3 equal\nmember 26 6 rep\nmember 27 15 rep\nmember 28 7 rep\nmember 29 15 equal\nmember 30 18 equal\nmember 31 10 rep\nmember 32 3 equal\nmember 33 20 rep\nmember 34 15 equal\nend\n";

/// What c17 without a fault answers to these patterns.
pub(crate) const C17_EXPECTED: &[u8] =
    b"0 00\n1 00\n2 11\n3 00\n4 10\n5 11\n6 11\n7 00\n8 00\n9 01\n10 00\n";

/// What c17 with net 2 stuck at 0 answers to them.
pub(crate) const C17_STUCK: &[u8] =
    b"0 00\n1 00\n2 00\n3 00\n4 10\n5 00\n6 00\n7 00\n8 00\n9 01\n10 00\n";

/// What c17 with a bridge between two nets answers to them.
pub(crate) const C17_BRIDGED: &[u8] =
    b"0 00\n1 00\n2 11\n3 00\n4 11\n5 11\n6 11\n7 00\n8 00\n9 11\n10 00\n";

/// A wire that no output shows.
pub(crate) const UNSEEN: &[u8] = b"INPUT(a)\n";

/// What the AND without a fault answers to the patterns of its result.
pub(crate) const AND_EXPECTED: &[u8] = b"0 0\n1 0\n2 0\n3 1\n";

/// An OR of a signal and its complement.
pub(crate) const TRUTH: &[u8] = b"INPUT(a)\nOUTPUT(z)\nb=NOT(a)\nz=OR(a,b)\n";
