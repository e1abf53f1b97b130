//! Results in parts: the head and the patterns, the evidence, the classes, and the numbers with the end.

use sample_circuits::CircuitParts;

/// Of z = AND(a, b).
pub(crate) const AND_HEAD: &str =
    "diatest 1 2 1 7\nbudget 4 64 2000\npattern 00\npattern 10\npattern 01\npattern 11\n";

pub(crate) const AND_EVIDENCE: &str = "same 3 1 C\nsame 5 1 C\n";

pub(crate) const AND_CLASSES: &str =
    "class 0 - -\nclass 1 0 0\nclass 2 0 1\nclass 3 0 2\nclass 4 0 3\n";

pub(crate) const AND_MEMBERS: &str =
    "member 0 0 rep\nmember 1 4 rep\nmember 2 3 rep\nmember 3 4 equal\nmember 4 2 rep\nmember 5 4 equal\nmember 6 1 rep\nend\n";

/// Of b = NOT(a) and z = OR(a, b).
pub(crate) const NOT_HEAD: &str = "diatest 1 1 1 11\nbudget 4 64 2000\npattern 0\npattern 1\n";

pub(crate) const NOT_EVIDENCE: &str =
    "same 1 0 T 0 . .\nsame 2 0 T 0 . .\nsame 3 0 T 0 . .\nsame 6 0 T 0 . .\nsame 7 4 C\nsame 8 0 T 0 . .\nsame 10 0 T 0 . .\n";

pub(crate) const NOT_MEMBERS: &str =
    "member 0 0 rep\nmember 1 0 equal\nmember 2 0 equal\nmember 3 0 equal\nmember 4 1 rep\nmember 5 2 rep\nmember 6 0 equal\nmember 7 1 equal\nmember 8 0 equal\nmember 9 3 rep\nmember 10 0 equal\nend\n";

pub(crate) const NOT_CLASSES: &str = "class 0 - -\nclass 1 0 0\nclass 2 0 1\nclass 3 1 1\n";

/// The same without budgets.
pub(crate) const OPEN_EVIDENCE: &str =
    "same 1 0 O ?\nsame 2 0 O ?\nsame 3 0 O ?\nsame 6 0 O ?\nsame 7 4 C\nsame 8 0 O ?\nsame 10 0 O ?\n";

pub(crate) const OPEN_HEAD: &str = "diatest 1 1 1 11\nbudget 4 0 0\npattern 0\npattern 1\n";

pub(crate) const OPEN_MEMBERS: &str =
    "member 0 0 rep\nmember 1 0 open\nmember 2 0 open\nmember 3 0 open\nmember 4 1 rep\nmember 5 2 rep\nmember 6 0 open\nmember 7 1 equal\nmember 8 0 open\nmember 9 3 rep\nmember 10 0 open\nend\n";

/// A source that nothing reads.
pub(crate) const LONE: CircuitParts<'static> = CircuitParts {
    sources: 1,
    gates: &[],
    positions: &[],
};

pub(crate) const LONE_HEAD: &str = "diatest 1 1 0 3\nbudget 4 0 2000\n";

pub(crate) const LONE_EVIDENCE: &str = "same 1 0 R ? ; 1\nsame 2 0 R ? ; 1\n";

pub(crate) const LONE_END: &str =
    "class 0 - -\nmember 0 0 rep\nmember 1 0 equal\nmember 2 0 equal\nend\n";
