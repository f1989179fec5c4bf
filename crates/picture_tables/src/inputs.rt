//! Small certificates.

/// A right certificate: nothing.
pub const EMPTY: &str =
    "mixed-certificate 1\nkind matrix\nlength 0\n\nshape 0 0 0 0 0\nrank 0\nbase\nmatch\nfirst |\nlast |\nend\n";

/// A right certificate: one constant.
pub const CONSTANT: &str =
    "mixed-certificate 1\nkind matrix\nlength 9\neq a x=1\n\nshape 1 1 1 0 1\nrank 1\nbase 1=1\nmatch\nS 1: 1=1\nU 1: 1=1\nP 1: 1=1\nfirst |\nblock 1: 1 | q1 |\nlast |\nend\n";

/// The same with a rank that it has not.
pub const WRONG_RANK: &str =
    "mixed-certificate 1\nkind matrix\nlength 9\neq a x=1\n\nshape 1 1 1 0 1\nrank 0\nbase 1=1\nmatch\nS 1: 1=1\nU 1: 1=1\nP 1: 1=1\nfirst |\nblock 1: 1 | q1 |\nlast |\nend\n";

/// The same without its last line.
pub const NO_END: &str =
    "mixed-certificate 1\nkind matrix\nlength 9\neq a x=1\n\nshape 1 1 1 0 1\nrank 1\nbase 1=1\nmatch\nS 1: 1=1\nU 1: 1=1\nP 1: 1=1\nfirst |\nblock 1: 1 | q1 |\nlast |\n";

/// A right certificate: two equations, of which the second has a number and a symbol.
pub const MIXED: &str =
    "mixed-certificate 1\nkind matrix\nlength 26\neq a x=1 y=1\neq b x=1 y=?\n\nshape 2 2 2 1 3\nrank 2\nbase 1=1 2=2\nmatch 1=3\nS 1: 2=1\nS 2: 1=1 2=65520\nU 1: 1=1 2=1\nU 2: 1=1\nP 1: 1=1 3=1\nP 2: 2=1 3=65520\nT 1: 2 3\nfirst |\nblock 1: 1 | q1 |\nblock 2: 2 3 | q2 t1 | 1\nlast |\nend\n";

/// A right certificate of version 2: one constant, which is 0 in the smaller field.
pub const LARGE: &str =
    "mixed-certificate 2\nfield 2147483647\nkind matrix\nlength 13\neq a x=65521\n\nshape 1 1 1 0 1\nrank 1\n\
     base 1=1\nmatch\nS 1: 1=1675614749\nU 1: 1=65521\nP 1: 1=1\nfirst |\nblock 1: 1 | q1 |\nlast |\nend\n";
