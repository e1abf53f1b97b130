//! Results with patterns after evidence, numbers that evidence names twice, and marks that fell, and what is left of
//! each.

use net_model::Kind;
use sample_circuits::CircuitParts;

/// Line 3 is source 0, and isn't shown. Sources 0 and 2 are.
pub(crate) const UNSEEN_COPY: CircuitParts<'static> = CircuitParts {
    sources: 3,
    gates: &[(Kind::Buff, &[0])],
    positions: &[0, 2],
};

/// The open marks of 5 and 6 fall, and evidence after patterns names these once more.
pub(crate) const COPY_ALL: &[&str] = &[
    "diatest 1 3 2 13\nbudget 65536 0 0\nsame 1 0 O 0 ? ?\nsame 2 0 O 0 ? ?\nsame 3 0 R ? ; 1\n",
    "same 4 0 R ? ; 1\nsame 5 0 O 0 ? ?\nsame 6 0 O 0 ? ?\nsame 7 0 R ? ; 1\nsame 8 0 R ? ; 1\n",
    "same 9 0 O 2 ? ?\nsame 10 0 O 2 ? ?\nsame 11 0 R ? ; 1\npattern 110\n",
    "same 5 1 R ? ; 1 -1 2 -3 4\npattern 101\nsame 12 0 R ? ; 1\npattern 010\n",
    "same 6 2 R ? ; 1 1 3 -3 4\nclass 0 - -\nclass 1 0 0\nclass 2 0 0\nclass 3 0 1\nclass 4 0 2\n",
    "member 0 0 rep\nmember 1 1 rep\nmember 2 4 rep\nmember 3 0 equal\nmember 4 0 equal\n",
    "member 5 1 equal\nmember 6 4 equal\nmember 7 0 equal\nmember 8 0 equal\nmember 9 3 rep\n",
    "member 10 2 rep\nmember 11 0 equal\nmember 12 0 equal\nend\n",
];

/// What is left of `COPY_ALL`.
pub(crate) const COPY_LEFT: &[&str] = &[
    "diatest 1 3 2 13\nbudget 65536 0 0\npattern 101\npattern 010\nsame 3 0 R ? ; 1\n",
    "same 4 0 R ? ; 1\nsame 5 1 R ? ; 1 -1 2 -3 4\nsame 6 2 R ? ; 1 1 3 -3 4\nsame 7 0 R ? ; 1\n",
    "same 8 0 R ? ; 1\nsame 11 0 R ? ; 1\nsame 12 0 R ? ; 1\nclass 0 - -\nclass 1 0 0\nclass 2 0 0\n",
    "class 3 0 1\nclass 4 0 1\nmember 0 0 rep\nmember 1 1 rep\nmember 2 3 rep\nmember 3 0 equal\n",
    "member 4 0 equal\nmember 5 1 equal\nmember 6 3 equal\nmember 7 0 equal\nmember 8 0 equal\n",
    "member 9 2 rep\nmember 10 4 rep\nmember 11 0 equal\nmember 12 0 equal\nend\n",
];

/// Line 3 is source 2. It is shown, and so is source 1.
pub(crate) const OR_OF_ONE: CircuitParts<'static> = CircuitParts {
    sources: 3,
    gates: &[(Kind::Or, &[2])],
    positions: &[3, 1],
};

/// The open mark of 7 falls, and evidence after the last pattern names it once more.
pub(crate) const ONE_ALL: &[&str] = &[
    "diatest 1 3 2 9\nbudget 0 0 0\nsame 1 0 R ? ; 1\nsame 2 0 R ? ; 1\nsame 3 0 O 1 ? ?\n",
    "same 4 0 O 1 ? ?\nsame 5 0 O ?\npattern 010\nsame 7 0 O ?\nsame 8 6 C\npattern 011\n",
    "pattern 101\nsame 7 5 C\nclass 0 - -\nclass 1 0 0\nclass 2 0 0\nclass 3 0 1\nclass 4 0 2\n",
    "member 0 0 rep\nmember 1 0 equal\nmember 2 0 equal\nmember 3 1 rep\nmember 4 4 rep\n",
    "member 5 3 rep\nmember 6 2 rep\nmember 7 3 equal\nmember 8 2 equal\nend\n",
];

/// What is left of `ONE_ALL`.
pub(crate) const ONE_LEFT: &[&str] = &[
    "diatest 1 3 2 9\nbudget 0 0 0\npattern 010\npattern 101\nsame 1 0 R ? ; 1\nsame 2 0 R ? ; 1\n",
    "same 7 5 C\nsame 8 6 C\nclass 0 - -\nclass 1 0 0\nclass 2 0 0\nclass 3 0 1\nclass 4 0 1\n",
    "member 0 0 rep\nmember 1 0 equal\nmember 2 0 equal\nmember 3 1 rep\nmember 4 3 rep\n",
    "member 5 4 rep\nmember 6 2 rep\nmember 7 4 equal\nmember 8 2 equal\nend\n",
];

/// Line 3 is the OR of two sources, and is shown twice.
pub(crate) const OR_SHOWN_TWICE: CircuitParts<'static> = CircuitParts {
    sources: 3,
    gates: &[(Kind::Or, &[0, 1])],
    positions: &[3, 3],
};

/// The marks of 4, 7 and 8 fall, and that of 7 falls once more.
pub(crate) const TWICE_ALL: &[&str] = &[
    "diatest 1 3 2 13\nbudget 65536 1 0\nsame 1 0 O 0 . 1 ? ?\nsame 2 0 O 1 0 ? . ?\n",
    "same 3 0 O 0 1 . ? ?\nsame 4 0 O 1 0 ? ? .\nsame 5 0 T .\nsame 6 0 T .\nsame 7 0 O 0 1 . ? ?\n",
    "same 8 0 O 0 1 ? . ?\nsame 9 0 O 0 1 . ? ?\nsame 10 0 O 1 ? .\npattern 011\npattern 000\n",
    "same 4 2 C\nsame 7 3 O 0 . ?\nsame 8 2 C\npattern 111\npattern 100\nclass 0 - -\nclass 1 0 0\n",
    "class 2 0 0\nclass 3 0 0\nclass 4 0 1\nclass 5 0 1\nclass 6 0 1\nclass 7 1 2\nclass 8 0 3\n",
    "member 0 0 rep\nmember 1 8 rep\nmember 2 4 rep\nmember 3 1 rep\nmember 4 4 equal\n",
    "member 5 0 equal\nmember 6 0 equal\nmember 7 7 rep\nmember 8 4 equal\nmember 9 2 rep\n",
    "member 10 5 rep\nmember 11 3 rep\nmember 12 6 rep\nend\n",
];

/// What is left of `TWICE_ALL`.
pub(crate) const TWICE_LEFT: &[&str] = &[
    "diatest 1 3 2 13\nbudget 65536 1 0\npattern 011\npattern 000\npattern 100\nsame 4 2 C\n",
    "same 5 0 T .\nsame 6 0 T .\nsame 8 2 C\nclass 0 - -\nclass 1 0 0\nclass 2 0 0\nclass 3 0 0\n",
    "class 4 0 1\nclass 5 0 1\nclass 6 0 1\nclass 7 0 2\nclass 8 1 2\nmember 0 0 rep\n",
    "member 1 7 rep\nmember 2 4 rep\nmember 3 1 rep\nmember 4 4 equal\nmember 5 0 equal\n",
    "member 6 0 equal\nmember 7 8 rep\nmember 8 4 equal\nmember 9 2 rep\nmember 10 5 rep\n",
    "member 11 3 rep\nmember 12 6 rep\nend\n",
];
