//! Netlists, and results, dictionaries and a log of some of them.

/// An OR of a signal and its complement.
pub(crate) const TRUTH: &[u8] = b"INPUT(a)\nOUTPUT(z)\nb=NOT(a)\nz=OR(a,b)\n";

pub(crate) const AND: &[u8] = b"INPUT(a)\nINPUT(b)\nOUTPUT(z)\nz=AND(a,b)\n";

/// A multiplexer.
pub(crate) const MUX: &[u8] = b"INPUT(s)\nINPUT(a)\nINPUT(b)\nOUTPUT(z)\nz=MUX(s,a,b)\n";

/// An input that two outputs show.
pub(crate) const TWICE: &[u8] = b"INPUT(a)\nOUTPUT(a)\nOUTPUT(a)\n";

/// An AND gate whose output is shown twice.
pub(crate) const AND_TWICE: &[u8] = b"INPUT(a)\nINPUT(b)\nOUTPUT(z)\nOUTPUT(z)\nz=AND(a,b)\n";

/// A log with the last answer wrong: the AND without a fault answers 1 to the last pattern.
pub(crate) const LOG: &[u8] = b"0 0\n1 0\n2 0\n3 0\n";

/// A partial log of two patterns of an AND, one of which was observed.
pub(crate) const PARTIAL_LOG: &[u8] = b"1 1\n3 x\n";

/// The sum of nine inputs, and the complement of the sum of three sums over them.
pub(crate) const PARITY: &[u8] =
    b"INPUT(a0)\nINPUT(a1)\nINPUT(a2)\nINPUT(a3)\nINPUT(a4)\nINPUT(a5)\nINPUT(a6)\nINPUT(a7)\nINPUT(a8)\nOUTPUT(z)\nf=XOR(a0,a1,a2,a3,a4,a5,a6,a7,a8)\nt0=XOR(a0,a1,a2)\nt1=XOR(a3,a4,a5)\nt2=XOR(a6,a7,a8)\ng=XNOR(t0,t1,t2)\nz=XOR(f,g)\n";

pub(crate) const C17: &[u8] =
    b"# c17\nINPUT(1)\nINPUT(2)\nINPUT(3)\nINPUT(6)\nINPUT(7)\n\nOUTPUT(22)\nOUTPUT(23)\n\n10 = NAND(1, 3)\n11 = NAND(3, 6)\n16 = NAND(2, 11)\n19 = NAND(11, 7)\n22 = NAND(10, 16)\n23 = NAND(16, 19)\n";

pub(crate) const S27: &[u8] =
    b"# s27\nINPUT(G0)\nINPUT(G1)\nINPUT(G2)\nINPUT(G3)\n\nOUTPUT(G17)\n\nG5 = DFF(G10)\nG6 = DFF(G11)\nG7 = DFF(G13)\nG14 = NOT(G0)\nG17 = NOT(G11)\nG8 = AND(G14, G6)\nG15 = OR(G12, G8)\nG16 = OR(G3, G8)\nG9 = NAND(G16, G15)\nG10 = NOR(G14, G11)\nG11 = NOR(G5, G9)\nG12 = NOR(G1, G7)\nG13 = NOR(G2, G12)\n";

pub(crate) const AND_RESULT: &[u8] =
    b"diatest 1 2 1 7\nbudget 4 64 2000\npattern 00\npattern 10\npattern 01\npattern 11\nsame 3 1 C\nsame 5 1 C\nclass 0 - -\nclass 1 0 0\nclass 2 0 1\nclass 3 0 2\nclass 4 0 3\nmember 0 0 rep\nmember 1 4 rep\nmember 2 3 rep\nmember 3 4 equal\nmember 4 2 rep\nmember 5 4 equal\nmember 6 1 rep\nend\n";

/// The adaptive plan of the AND's result.
pub(crate) const AND_PLAN: &[u8] =
    b"adapt 1 1 4 5\nask 1 2\non 0\nask 2 2\non 0\nask 3 2\non 1\nclass 0\non 0\nclass 4\non 1\nclass 3\non 1\nask 0 2\non 1\nclass 1\non 0\nclass 2\nend\n";

/// What is left of the AND's result without the first pattern, the only one that its classes don't need.
pub(crate) const AND_COMPACTED: &[u8] =
    b"diatest 1 2 1 7\nbudget 4 64 2000\npattern 10\npattern 01\npattern 11\nsame 3 1 C\nsame 5 1 C\nclass 0 - -\nclass 1 0 0\nclass 2 0 1\nclass 3 1 1\nclass 4 0 2\nmember 0 0 rep\nmember 1 4 rep\nmember 2 2 rep\nmember 3 4 equal\nmember 4 1 rep\nmember 5 4 equal\nmember 6 3 rep\nend\n";

/// The result of the OR of a signal and its complement.
pub(crate) const TRUTH_RESULT: &[u8] =
    b"diatest 1 1 1 11\nbudget 4 64 2000\npattern 0\npattern 1\nsame 1 0 T 0 . .\nsame 2 0 T 0 . .\nsame 3 0 T 0 . .\nsame 6 0 T 0 . .\nsame 7 4 C\nsame 8 0 T 0 . .\nsame 10 0 T 0 . .\nclass 0 - -\nclass 1 0 0\nclass 2 0 1\nclass 3 1 1\nmember 0 0 rep\nmember 1 0 equal\nmember 2 0 equal\nmember 3 0 equal\nmember 4 1 rep\nmember 5 2 rep\nmember 6 0 equal\nmember 7 1 equal\nmember 8 0 equal\nmember 9 3 rep\nmember 10 0 equal\nend\n";

pub(crate) const TWICE_RESULT: &[u8] =
    b"diatest 1 1 2 7\nbudget 0 0 0\npattern 0\npattern 1\nclass 0 - -\nclass 1 0 0\nclass 2 0 0\nclass 3 0 0\nclass 4 0 1\nclass 5 0 1\nclass 6 0 1\nmember 0 0 rep\nmember 1 4 rep\nmember 2 1 rep\nmember 3 5 rep\nmember 4 2 rep\nmember 5 6 rep\nmember 6 3 rep\nend\n";

/// An input that three outputs show.
pub(crate) const THRICE: &[u8] = b"INPUT(a)\nOUTPUT(a)\nOUTPUT(a)\nOUTPUT(a)\n";

pub(crate) const THRICE_RESULT: &[u8] =
    b"diatest 1 1 3 9\nbudget 4 64 2000\npattern 0\npattern 1\nclass 0 - -\nclass 1 0 0\nclass 2 0 0\nclass 3 0 0\nclass 4 0 0\nclass 5 0 1\nclass 6 0 1\nclass 7 0 1\nclass 8 0 1\nmember 0 0 rep\nmember 1 5 rep\nmember 2 1 rep\nmember 3 6 rep\nmember 4 2 rep\nmember 5 7 rep\nmember 6 3 rep\nmember 7 8 rep\nmember 8 4 rep\nend\n";

pub(crate) const THRICE_PLAN: &[u8] =
    b"adapt 1 3 2 9\nask 0 5\non 000\nask 1 5\non 111\nclass 0\non 000\nclass 5\non 011\nclass 6\non 101\nclass 7\non 110\nclass 8\non 111\nclass 1\non 100\nclass 2\non 010\nclass 3\non 001\nclass 4\nend\n";

pub(crate) const AND_TWICE_RESULT: &[u8] =
    b"diatest 1 2 2 11\nbudget 4 64 2000\npattern 00\npattern 10\npattern 01\npattern 11\nsame 3 1 C\nsame 5 1 C\nclass 0 - -\nclass 1 0 0\nclass 2 0 0\nclass 3 0 0\nclass 4 0 1\nclass 5 0 2\nclass 6 0 3\nclass 7 0 3\nclass 8 0 3\nmember 0 0 rep\nmember 1 6 rep\nmember 2 5 rep\nmember 3 6 equal\nmember 4 4 rep\nmember 5 6 equal\nmember 6 1 rep\nmember 7 7 rep\nmember 8 2 rep\nmember 9 8 rep\nmember 10 3 rep\nend\n";

/// The pass/fail dictionary of the AND in version 1 and in version 2.
pub(crate) const ONE: &[u8] =
    b"DIAT\x00\x01\x01\x00\x00\x00\x01\x00\x00\x00\x04\x00\x00\x00\x07\x00\x00\x00\x80\x00\x10\x20\x10\x40\x10\xe0";

pub(crate) const TWO: &[u8] =
    b"DIAT\x00\x02\x01\x00\x00\x00\x01\x00\x00\x00\x04\x00\x00\x00\x07\x00\x00\x00\x05\x00\x00\x00\x80\x00\x00\x00\x00\x00\x00\x00\x01\x00\x00\x00\x02\x00\x00\x00\x01\x00\x00\x00\x03\x00\x00\x00\x01\x00\x00\x00\x04\x00\x10\x20\x40\xe0";

/// The full dictionary of the AND in version 1 and in version 2.
pub(crate) const FULL_ONE: &[u8] =
    b"DIAT\x00\x01\x02\x00\x00\x00\x01\x00\x00\x00\x04\x00\x00\x00\x07\x10\x00\x30\x00P\x00\xf0";

pub(crate) const FULL_TWO: &[u8] =
    b"DIAT\x00\x02\x02\x00\x00\x00\x01\x00\x00\x00\x04\x00\x00\x00\x07\x00\x00\x00\x05\x00\x00\x00\x00\x00\x00\x00\x01\x00\x00\x00\x02\x00\x00\x00\x01\x00\x00\x00\x03\x00\x00\x00\x01\x00\x00\x00\x04\x10\x00\x30P\xf0";

/// The same/different dictionary of the AND, whose baselines are the fault-free answers too.
pub(crate) const SAME_DIFF: &[u8] =
    b"DIAT\x00\x02\x03\x00\x00\x00\x01\x00\x00\x00\x04\x00\x00\x00\x07\x00\x00\x00\x05\x00\x00\x00\x80\x00\x00\x00\x00\x00\x00\x00\x01\x00\x00\x00\x02\x00\x00\x00\x01\x00\x00\x00\x03\x00\x00\x00\x01\x00\x00\x00\x04\x00\x10\x20\x40\xe0";

/// The same/different dictionary of the AND that is shown twice. With the baseline 11 in place of the fault-free 00 at
/// the second pattern it keeps two more pairs apart than the pass/fail one.
pub(crate) const AND_TWICE_CHOSEN: &[u8] =
    b"DIAT\x00\x02\x03\x00\x00\x00\x02\x00\x00\x00\x04\x00\x00\x00\x0b\x00\x00\x00\x06\x00\xc0\x00\xc0\x00\x00\x00\x00\x00\x00\x00\x01\x00\x00\x00\x02\x00\x00\x00\x01\x00\x00\x00\x03\x00\x00\x00\x01\x00\x00\x00\x04\x00\x00\x00\x01\x00\x00\x00\x05\x00\x00\x00\x01\x00\x00\x00\x05\x40P\x60\x00\xa0\xe0";

/// The full dictionary of the OR of a signal and its complement.
pub(crate) const TRUTH_FULL: &[u8] =
    b"DIAT\x00\x02\x02\x00\x00\x00\x01\x00\x00\x00\x02\x00\x00\x00\x0b\x00\x00\x00\x04\x00\x00\x00\x00\x00\x00\x00\x00\x00\x00\x00\x00\x00\x00\x00\x00\x00\x00\x00\x01\x00\x00\x00\x02\x00\x00\x00\x00\x00\x00\x00\x01\x00\x00\x00\x00\x00\x00\x00\x03\x00\x00\x00\x00\xc0\x40\x80\x00";
