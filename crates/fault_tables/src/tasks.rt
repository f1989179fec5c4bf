//! What each command writes of three symbols in a triangle. Texts are those of the formats, never the program's own.

/// An equation list: three symbols in a triangle.
pub const TRIANGLE: &[u8] = b"eq a x=? y=?\neq b x=?\n";

/// Its certificate.
pub const CERTIFICATE: &[u8] =
    b"mixed-certificate 1\nkind matrix\nlength 22\neq a x=? y=?\neq b x=?\n\nshape 2 2 0 2 2\nrank 2\nbase\nmatch 1=2 2=1\nT 1: 1 2\nT 2: 1\nfirst |\nblock 1: 2 | t1 |\nblock 2: 1 | t2 | 1\nlast |\nend\n";

/// A command, its input, and what it writes.
#[derive(Clone, Copy)]
pub struct Task<'a> {
    pub words: &'a [&'a str],
    pub input: &'a [u8],
    /// The most bytes that a call of the source gives, and how many calls then read the input to its end.
    pub step: usize,
    pub reads: u64,
    pub text: &'a [u8],
}

/// Each command that reads an input.
pub const READING: [Task; 9] = [
    // reads of 5, 5, 5, 5, 2 and 0 bytes
    Task {
        words: &["mixed", "analyse", "matrix"],
        input: TRIANGLE,
        step: 5,
        reads: 6,
        text: CERTIFICATE,
    },
    // reads of 11, 11 and 0 bytes
    Task {
        words: &["mixed", "layer", "matrix"],
        input: TRIANGLE,
        step: 11,
        reads: 3,
        text: b"columns 2\nc1 x\nc2 y\nt1 a 1 2\nt2 b 1\n",
    },
    // reads of 7, 7, 7, 1 and 0 bytes
    Task {
        words: &["mixed", "report", "matrix"],
        input: TRIANGLE,
        step: 7,
        reads: 5,
        text: b"equations 2 unknowns 2 rank 2\ntoo many 0\ntoo few 0\n",
    },
    // reads of one byte each, and of none
    Task {
        words: &["mixed", "plan", "matrix"],
        input: TRIANGLE,
        step: 1,
        reads: 23,
        text: b"step 1 block 2\nfor x\nby ?b\nuses\nstep 2 block 1\nfor y\nby ?a\nuses x\n",
    },
    // reads of 50, 50, 50, 30 and 0 bytes
    Task {
        words: &["mixed", "check"],
        input: CERTIFICATE,
        step: 50,
        reads: 5,
        text: b"accepted\n",
    },
    // reads of 12, 12, 10 and 0 bytes
    Task {
        words: &["mixed", "edit"],
        input: b"add 1 a x=? y=?\nadd 1 b x=?\nask 1\n",
        step: 12,
        reads: 4,
        text: b"changed 1\nchanged 2\nrank 2\nfirst\nblock 1: y |\nblock 2: x | 1\nlast\nend\n",
    },
    // reads of 8, 8, 6 and 0 bytes
    Task {
        words: &["mixed", "values", "matrix"],
        input: TRIANGLE,
        step: 8,
        reads: 4,
        text: b"rank 2\nvalue a x 1\nvalue a y 1\nvalue b x 1\n",
    },
    // reads of 40, 40, 5 and 0 bytes
    Task {
        words: &["mixed", "solve", "matrix"],
        input: b"value a x 2\nvalue a y 3\nvalue b x 5\nright a 7\nright b 10\nmodel\neq a x=? y=?\neq b x=?\n",
        step: 40,
        reads: 4,
        text: b"solution\nunknown x 2\nunknown y 1\n",
    },
    // reads of 9, 9, 9 and 0 bytes
    Task {
        words: &["mixed", "conflict", "matrix"],
        input: b"eq a x=1\neq b x=2\neq c x=3\n",
        step: 9,
        reads: 4,
        text: b"conflicts 3\nconflict a: a b\nconflict b: a b\nconflict c: a c\n",
    },
];

/// The command that reads nothing.
pub const MAKING: Task = Task {
    words: &["mixed", "make", "2"],
    input: TRIANGLE,
    step: 1,
    reads: 0,
    text: b"make 2\nequations 2 unknowns 2 split 1\nrank 2\nfirst 0 0\nblocks 1\nlast 0 0\n",
};
