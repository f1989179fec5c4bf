//! Runs over memory. Expected texts are those of the formats, never the program's own.

use memory_runs::{Memory, ROOM, Streams, holds};
use port_io::read_all;
use report_cli::{Status, run};
use std::alloc::Global;
use std::process::Abort;
use std::test::Fail;

/// The words for each command.
const ANALYSE: &[&str] = &["mixed", "analyse", "matrix"];

const LAYER: &[&str] = &["mixed", "layer", "matrix"];

/// One run over memory.
#[derive(Clone, Copy)]
pub(crate) struct Case<'a> {
    pub(crate) words: &'a [&'a str],
    pub(crate) input: &'a [u8],
    /// The most bytes that the source gives in one call.
    pub(crate) step: usize,
    /// The most bytes that the sink takes in one call.
    pub(crate) most: usize,
    /// The calls of the source, the sink and the notes that fail.
    pub(crate) source_fails: &'a [u64],
    pub(crate) out_fails: &'a [u64],
    pub(crate) notes_fail: &'a [u64],
    /// What is wanted: the status, how the output begins and ends, what stands in it, and what is noted.
    pub(crate) status: u8,
    pub(crate) begins: &'a [u8],
    pub(crate) holds: &'a [u8],
    pub(crate) ends: &'a [u8],
    pub(crate) notes: &'a [u8],
}

/// A case with ample room and no failing call.
pub(crate) fn calm<'a>(
    input: &'a [u8],
    status: u8,
    begins: &'a [u8],
    ends: &'a [u8],
    notes: &'a [u8],
) -> Case<'a> {
    Case {
        words: ANALYSE,
        input,
        step: ROOM,
        most: ROOM,
        source_fails: &[],
        out_fails: &[],
        notes_fail: &[],
        status,
        begins,
        holds: b"",
        ends,
        notes,
    }
}

/// Runs over these streams: how the run ends, and what it leaves.
pub(crate) fn run_over(alloc: Global, streams: &Streams) -> Result<(Status, Memory), Fail> {
    let mut memory = streams.open(alloc)?;
    let status = run(
        alloc,
        &memory.words,
        &mut memory.source,
        &mut memory.out,
        &mut memory.notes,
    );
    Ok((status, memory))
}

/// Runs a case, and compares what it leaves. A run of status 2 takes no byte.
pub(crate) fn expect_case(rt: &impl Abort, alloc: Global, case: &Case) -> Result<(), Fail> {
    let streams = Streams {
        words: case.words,
        input: case.input,
        step: case.step,
        most: case.most,
        source_fails: case.source_fails,
        out_fails: case.out_fails,
        notes_fail: case.notes_fail,
    };
    let (status, mut left) = run_over(alloc, &streams)?;
    assert_eq!(rt; status.number(), case.status);
    assert!(rt; left.out.bytes().starts_with(case.begins));
    assert!(rt; holds(left.out.bytes(), case.holds));
    assert!(rt; left.out.bytes().ends_with(case.ends));
    assert_eq!(rt; left.notes.bytes(), case.notes);
    if status == Status::Usage {
        let rest = read_all(alloc, &mut left.source, 1000)?;
        assert_eq!(rt; rest.as_slice(), case.input);
    }
    Ok(())
}

// A case that is answered by a certificate with this end.
fn certified<'a>(input: &'a [u8], ends: &'a [u8]) -> Case<'a> {
    calm(
        input,
        0,
        b"mixed-certificate 1\nkind matrix\nlength ",
        ends,
        b"",
    )
}

// A case that is answered by a certificate that holds this piece and has this end.
fn certified_holding<'a>(input: &'a [u8], holds: &'a [u8], ends: &'a [u8]) -> Case<'a> {
    Case {
        holds,
        ..certified(input, ends)
    }
}

// A case of `layer` that is answered by a text with this beginning and this end.
fn layered<'a>(input: &'a [u8], begins: &'a [u8], ends: &'a [u8]) -> Case<'a> {
    Case {
        words: LAYER,
        ..calm(input, 0, begins, ends, b"")
    }
}

// A case that is refused with this note.
fn refused<'a>(input: &'a [u8], notes: &'a [u8]) -> Case<'a> {
    calm(input, 3, b"", b"", notes)
}

#[test]
fn certificates_of_one_form(rt: HostRuntime) -> Result<(), Fail> {
    let empty =
        b"mixed-certificate 1\nkind matrix\nlength 0\n\nshape 0 0 0 0 0\nrank 0\nbase\nmatch\nfirst |\nlast |\nend\n";
    let one =
        b"mixed-certificate 1\nkind matrix\nlength 9\neq a x=1\n\nshape 1 1 1 0 1\nrank 1\nbase 1=1\nmatch\nS 1: 1=1\nU 1: 1=1\nP 1: 1=1\nfirst |\nblock 1: 1 | q1 |\nlast |\nend\n";
    let returned =
        b"mixed-certificate 1\nkind matrix\nlength 10\neq a x=1\r\n\nshape 1 1 1 0 1\nrank 1\nbase 1=1\nmatch\nS 1: 1=1\nU 1: 1=1\nP 1: 1=1\nfirst |\nblock 1: 1 | q1 |\nlast |\nend\n";
    let unknown =
        b"mixed-certificate 1\nkind matrix\nlength 10\nunknown x\n\nshape 0 1 0 0 1\nrank 0\nbase\nmatch\nfirst 1 |\nlast |\nend\n";
    let triangle =
        b"mixed-certificate 1\nkind matrix\nlength 22\neq a x=? y=?\neq b x=?\n\nshape 2 2 0 2 2\nrank 2\nbase\nmatch 1=2 2=1\nT 1: 1 2\nT 2: 1\nfirst |\nblock 1: 2 | t1 |\nblock 2: 1 | t2 | 1\nlast |\nend\n";
    let loose =
        b"mixed-certificate 1\nkind matrix\nlength 18\neq a x=?\neq b y=?\n\nshape 2 2 0 2 2\nrank 2\nbase\nmatch 1=1 2=2\nT 1: 1\nT 2: 2\nfirst |\nblock 1: 1 | t1 |\nblock 2: 2 | t2 |\nlast |\nend\n";
    let cases = [
        calm(b"", 0, empty, empty, b""),
        calm(b"eq a x=1\n", 0, one, one, b""),
        calm(b"eq a x=1\r\n", 0, returned, returned, b""),
        calm(b"unknown x\n", 0, unknown, unknown, b""),
        calm(b"eq a x=? y=?\neq b x=?\n", 0, triangle, triangle, b""),
        calm(b"eq a x=?\neq b y=?\n", 0, loose, loose, b""),
    ];
    for case in cases {
        expect_case(&rt, rt.alloc(), &case)?;
    }
    Ok(())
}

#[test]
fn certificates_of_several_forms(rt: HostRuntime) -> Result<(), Fail> {
    let pair = b"eq a x=1 y=1\neq b x=1 y=1\n";
    let over = b"eq a x=1 y=1\neq b x=1 y=?\n";
    let tails = b"eq a x=1\neq b x=1\n";
    let cases = [
        certified_holding(pair, b"\nshape 2 2 2 0 2\nrank 1\nbase ", b"\nend\n"),
        certified_holding(pair, b"\nmatch\n", b"\nend\n"),
        certified_holding(pair, b"\nfirst 1 2 | q", b"\nend\n"),
        certified_holding(pair, b"\nlast | q", b"\nend\n"),
        certified_holding(
            b"eq a\n",
            b"\nshape 1 0 1 0 0\nrank 0\nbase\nmatch\nS 1: 1=",
            b"\nP 1:\nfirst |\nlast | q1\nend\n",
        ),
        certified_holding(
            over,
            b"\nshape 2 2 2 1 3\nrank 2\nbase ",
            b" t1 | 1\nlast |\nend\n",
        ),
        certified_holding(
            over,
            b"\nT 1: 2 3\nfirst |\nblock 1: 1 | q",
            b" t1 | 1\nlast |\nend\n",
        ),
        certified_holding(over, b"\nblock 2: 2 3 | q", b" t1 | 1\nlast |\nend\n"),
        certified_holding(
            b"eq a x=? y=1\neq b x=1 y=?\n",
            b"\nshape 2 2 2 2 4\nrank 2\n",
            b"\nfirst |\nblock 1: 1 2 3 4 | q1 q2 t1 t2 |\nlast |\nend\n",
        ),
        certified_holding(
            b"eq a x=1+?\n",
            b"\nrank 1\n",
            b"\nblock 1: 1 2 | q1 t1 |\nlast |\nend\n",
        ),
        certified_holding(
            b"eq a x=?\neq b x=?\n",
            b"\nrank 1\n",
            b"\nfirst |\nlast 1 | t1 t2\nend\n",
        ),
        certified_holding(tails, b"\nrank 1\n", b"\nend\n"),
        certified_holding(tails, b"\nfirst |\nblock 1: 1 | q", b"\nend\n"),
        certified_holding(tails, b"\nlast | q", b"\nend\n"),
    ];
    for case in cases {
        expect_case(&rt, rt.alloc(), &case)?;
    }
    Ok(())
}

#[test]
fn lists_that_break_a_rule(rt: HostRuntime) -> Result<(), Fail> {
    let vanishes = b"mixed: line 1: vanishes in the field\n";
    let number = b"mixed: line 1: bad number\n";
    let cases = [
        refused(b"eq a x=1 x=2\n", b"mixed: line 1: twice\n"),
        refused(b"eq a\neq a\n", b"mixed: line 2: twice\n"),
        refused(b"eq\n", b"mixed: line 1: bad shape\n"),
        refused(b"sum a\n", b"mixed: line 1: bad word\n"),
        refused(b"eq 7a\n", b"mixed: line 1: bad name\n"),
        refused(b"eq a x=?+?\n", number),
        refused(b"eq a x=65521\n", vanishes),
        refused(b"eq a x=1/65521\n", vanishes),
        refused(b"eq a x=0/65521\n", vanishes),
        refused(b"eq a x=1/0\n", vanishes),
        refused(b"eq a x=1e3\n", number),
        refused(b"eq a x=.5\n", number),
        refused(b"eq a x=1234567890123456789\n", number),
    ];
    for case in cases {
        expect_case(&rt, rt.alloc(), &case)?;
    }
    Ok(())
}

#[test]
fn spellings_at_the_edges(rt: HostRuntime) -> Result<(), Fail> {
    let one = b"\nP 1: 1=1\nfirst |\nblock 1: 1 | q1 |\nlast |\nend\n";
    let zero = b"\nP 1:\n";
    let empty = b"\nshape 0 0 0 0 0\nrank 0\nbase\nmatch\nfirst |\nlast |\nend\n";
    let cases = [
        certified(b"eq a x=000000000000000001", one),
        certified_holding(b"eq a x=+0/5\n", zero, b"\nend\n"),
        certified_holding(b"eq a x=0.0\n", zero, b"\nend\n"),
        certified_holding(b"eq a x=-0\n", zero, b"\nend\n"),
        certified(b"\teq\ta\t\tx=2.5 \t\n", one),
        certified(b"eq a x=1# \xe4\xff\n", one),
        certified(b"\n", empty),
        certified(b"# alone \x01\x7f\xff", empty),
        certified(
            b"unknown abcdefghijklmnopqrstuvwxyz_ABCDEFGHIJKLMNOPQRSTUVWXYZ.123456789_",
            b"\nshape 0 1 0 0 1\nrank 0\nbase\nmatch\nfirst 1 |\nlast |\nend\n",
        ),
        refused(
            b"unknown abcdefghijklmnopqrstuvwxyz_ABCDEFGHIJKLMNOPQRSTUVWXYZ.123456789_x",
            b"mixed: line 1: bad name\n",
        ),
        refused(b"\neq a x=\xe4", b"mixed: line 2: bad byte\n"),
        refused(b"eq a\x7f", b"mixed: line 1: bad byte\n"),
    ];
    for case in cases {
        expect_case(&rt, rt.alloc(), &case)?;
    }
    Ok(())
}

#[test]
fn layers_of_lists(rt: HostRuntime) -> Result<(), Fail> {
    let split = b"columns 2\nc1 x\nc2 *a\nq1 a 1=1 2=1\nt1 a 1 2\n";
    let columns = b"columns 1\nc1 x\n";
    let one = b"\nq1 a 1=1\n";
    let zero = b"\nq1 a\n";
    let cases = [
        layered(b"eq a x=1+?\n", split, split),
        layered(b"eq a x=65522\n", columns, one),
        layered(b"eq a x=0\n", columns, zero),
        layered(b"eq a x=0/5\n", columns, zero),
        layered(b"eq a x=-1\n", columns, b"\nq1 a 1=65520\n"),
        layered(b"eq a x=1/3\n", columns, b"\nq1 a 1=43681\n"),
        layered(b"eq a x=0.5\n", columns, b"\nq1 a 1=32761\n"),
    ];
    for case in cases {
        expect_case(&rt, rt.alloc(), &case)?;
    }
    Ok(())
}

#[test]
fn layers_of_lists_that_break_a_rule(rt: HostRuntime) -> Result<(), Fail> {
    for case in [
        refused(b"eq a x=1 x=2\n", b"mixed: line 1: twice\n"),
        refused(b"eq a\neq a\n", b"mixed: line 2: twice\n"),
        refused(b"eq a x=1/0\n", b"mixed: line 1: vanishes in the field\n"),
    ] {
        let case = Case {
            words: LAYER,
            ..case
        };
        expect_case(&rt, rt.alloc(), &case)?;
    }
    Ok(())
}

/// A balance of two streams, and a spring between two masses.
const EXAMPLES: [&[u8]; 2] = [
    b"# two streams join\nunknown feed\r\neq mass feed=1 back=1 out=-1\neq split back=1 out=-0.25\n",
    b"eq spring f=1 x1=-3/2 x2=+3/2\n\neq left a1=2 f=-1 # mass 2\n\teq right a2=0.50 f=1\n",
];

// A netlist whose certificate holds this piece.
fn circuit<'a>(input: &'a [u8], holds: &'a [u8]) -> Case<'a> {
    Case {
        words: &["mixed", "analyse", "netlist"],
        holds,
        ..calm(
            input,
            0,
            b"mixed-certificate 1\nkind netlist\nlength ",
            b"\nend\n",
            b"",
        )
    }
}

#[test]
fn circuits(rt: HostRuntime) -> Result<(), Fail> {
    let amplifier = b"V1 in 0\nR1 in m\nR2 m out\n.opamp U1 0 m out\n";
    let cases = [
        // a loop of voltages, a cut of currents, and two circuits that determine their unknowns
        circuit(b"V1 a 0\nV2 a 0\n", b"\nrank 4\n"),
        circuit(b"I1 0 a\nI2 a 0\n", b"\nrank 4\n"),
        circuit(b"V1 a 0 5\nR1 a 0 1k\n", b"\nrank 5\n"),
        circuit(b"V1 a 0 5\nR1 a 0 1k\n", b"\nfirst |\nblock 1: "),
        circuit(amplifier, b"\nrank 10\n"),
        // the echo has comments and ignored words, and the model has neither
        circuit(
            b"* a \xff\nV1 a 0 5 # b\n",
            b"\nlength 19\n* a \xff\nV1 a 0 5 # b\n\nshape 3 3 3 0 3\n",
        ),
        circuit(
            b"",
            b"length 0\n\nshape 0 0 0 0 0\nrank 0\nbase\nmatch\nfirst |\nlast |\n",
        ),
    ];
    for case in cases {
        expect_case(&rt, rt.alloc(), &case)?;
    }
    Ok(())
}

/// The same case, with these words.
pub(crate) fn asked<'a>(words: &'a [&'a str], case: Case<'a>) -> Case<'a> {
    Case { words, ..case }
}

#[test]
fn layers_of_netlists(rt: HostRuntime) -> Result<(), Fail> {
    let controlled =
        b"columns 7\nc1 u.a\nc2 u.b\nc3 v.V1\nc4 i.V1\nc5 v.E1\nc6 i.E1\nc7 w.E1\nq1 kcl.a 4=1\nq2 kcl.b 6=1\nq3 kvl.V1 1=65520 3=1\nq4 law.V1 3=1\nq5 kvl.E1 2=65520 5=1\nq6 ctl.E1 1=65520 7=1\nt1 law.E1 5 7\n";
    let cases = [
        calm(b"V1 a 0\nE1 b 0 a 0\n", 0, controlled, controlled, b""),
        calm(
            b"V1 a 0\r\ne1 b 0 a 0 # 2\r\n",
            0,
            b"columns 7\n",
            b"t1 law.e1 5 7\n",
            b"",
        ),
        calm(b"* alone\n", 0, b"columns 0\n", b"columns 0\n", b""),
        refused(b"R1 a b", b"mixed: document: no ground\n"),
        refused(b"F1 a 0 V9", b"mixed: line 1: no such source\n"),
        refused(b"D1 a 0", b"mixed: line 1: unsupported\n"),
        refused(b"R1 a", b"mixed: line 1: bad shape\n"),
        refused(b"R1 a 0\nR1 a 0\n", b"mixed: line 2: twice\n"),
        refused(
            b"V1 a 0\n* b\nF1 a 0 R1\nR1 a 0\n",
            b"mixed: line 3: no such source\n",
        ),
    ];
    for case in cases {
        let words = &["mixed", "layer", "netlist"];
        expect_case(&rt, rt.alloc(), &asked(words, case))?;
    }
    Ok(())
}

/// A feed that a separator splits.
pub(crate) const SEPARATOR: &[u8] =
    b"components = [\"A\"]\nstreams = [\"s1\", \"s2\", \"s3\"]\n[[unit]]\nname = \"F\"\nkind = \"spec\"\nstream = \"s1\"\ncomponent = \"A\"\n[[unit]]\nname = \"S\"\nkind = \"separator\"\ninlet = \"s1\"\ntop = \"s2\"\nbottom = \"s3\"\n";

/// A tee with three outlets, in version 2, up to its fractions.
const TEE: &str =
    "version = 2\ncomponents = [\"A\"]\nstreams = [\"s1\", \"s2\", \"s3\", \"s4\"]\n[[unit]]\nname = \"T\"\nkind = \"tee\"\ninlet = \"s1\"\noutlets = [\"s2\", \"s3\", \"s4\"]\n";

#[test]
fn layers_of_flowsheets(rt: HostRuntime) -> Result<(), Fail> {
    let separator =
        b"columns 3\nc1 f.s1.A\nc2 f.s2.A\nc3 f.s3.A\nq1 spec.F 1=1\nq2 bal.S.A 1=1 2=65520 3=65520\nt1 split.S.A 1 2\n";
    let tee =
        b"columns 4\nc1 f.s1.A\nc2 f.s2.A\nc3 f.s3.A\nc4 f.s4.A\nq1 bal.T.A 1=1 2=65520 3=65520 4=65520\nq2 tee.T.A.1 1=32760 2=1\nq3 tee.T.A.2 1=21840 3=1\n";
    let two = format!(in rt.alloc(); "{TEE}fractions = [\"1/2\", \"1/3\"]\n")?;
    let one = format!(in rt.alloc(); "{TEE}fractions = [\"1/2\"]\n")?;
    let cases = [
        calm(SEPARATOR, 0, separator, separator, b""),
        calm(two.as_bytes(), 0, tee, tee, b""),
        calm(b"version = 1\n", 0, b"columns 0\n", b"columns 0\n", b""),
        refused(one.as_bytes(), b"mixed: unit 1: bad value\n"),
        refused(b"version = 3", b"mixed: document: bad version\n"),
        refused(b"= 3", b"mixed: document: not TOML\n"),
        refused(b"a = 1", b"mixed: document: unknown key\n"),
        refused(b"streams = [\"s1\", \"s1\"]", b"mixed: stream 2: twice\n"),
        refused(
            b"[[unit]]\nname = \"P\"\nkind = \"pump\"\n",
            b"mixed: unit 1: bad kind\n",
        ),
    ];
    for case in cases {
        let words = &["mixed", "layer", "flowsheet"];
        expect_case(&rt, rt.alloc(), &asked(words, case))?;
    }
    Ok(())
}

#[test]
fn flowsheets(rt: HostRuntime) -> Result<(), Fail> {
    let empty =
        b"mixed-certificate 1\nkind flowsheet\nlength 0\n\nshape 0 0 0 0 0\nrank 0\nbase\nmatch\nfirst |\nlast |\nend\n";
    let separator = b"\nend\n";
    let begins = b"mixed-certificate 1\nkind flowsheet\nlength 189\ncomponents = ";
    let cases = [
        calm(b"", 0, empty, empty, b""),
        Case {
            holds: b"\nshape 3 3 2 1 3\nrank 3\n",
            ..calm(SEPARATOR, 0, begins, separator, b"")
        },
        refused(b"version = 3", b"mixed: document: bad version\n"),
    ];
    for case in cases {
        let words = &["mixed", "analyse", "flowsheet"];
        expect_case(&rt, rt.alloc(), &asked(words, case))?;
    }
    Ok(())
}

#[test]
fn each_beginning_is_answered(rt: HostRuntime) -> Result<(), Fail> {
    let alloc = rt.alloc();
    for command in ["analyse", "layer"] {
        for text in EXAMPLES {
            expect_beginnings(&rt, alloc, &["mixed", command, "matrix"], text)?;
        }
    }
    Ok(())
}

// Runs each beginning of a text, which is answered by a text or by a refusal.
fn expect_beginnings(
    rt: &impl Abort,
    alloc: Global,
    words: &[&str],
    text: &[u8],
) -> Result<(), Fail> {
    for end in 0..=text.len() {
        let (status, _) = run_over(alloc, &Streams::calm(words, &text[..end]))?;
        assert!(rt; matches!(status, Status::Done | Status::Refused(_)));
    }
    Ok(())
}

#[test]
fn unknown_kinds(rt: HostRuntime) -> Result<(), Fail> {
    let cases: [&[&str]; 3] = [
        &["mixed", "analyse", "netlists"],
        &["mixed", "analyse", "picture"],
        &["mixed", "layer", "matrix "],
    ];
    for words in cases {
        let case = Case {
            words,
            ..calm(b"eq a x=1\n", 2, b"", b"", b"mixed: unknown word\n")
        };
        expect_case(&rt, rt.alloc(), &case)?;
    }
    Ok(())
}

#[test]
fn words_that_clap_does_not_take(rt: HostRuntime) -> Result<(), Fail> {
    let cases: [(&[&str], &[u8]); 11] = [
        (&["mixed"], b"Usage: mixed <COMMAND>\n"),
        (&[], b"Usage: mixed <COMMAND>\n"),
        (&["mixed", "help"], b"Usage: mixed <COMMAND>\n"),
        (&["mixed", "--help"], b"Usage: mixed <COMMAND>\n"),
        (
            &["mixed", "analyse", "--help"],
            b"Usage: mixed analyse <KIND> [FIELD]\n",
        ),
        (&["mixed", "check", "--help"], b"Usage: mixed check\n"),
        (&["mixed", "check", "matrix"], b"'matrix'"),
        (&["mixed", "order", "matrix"], b"'order'"),
        (&["mixed", "anal", "matrix"], b"'anal'"),
        (&["mixed", "analyse"], b"<KIND>"),
        (&["mixed", "--version"], b"'--version'"),
    ];
    for (words, told) in cases {
        expect_told(&rt, rt.alloc(), words, told)?;
    }
    Ok(())
}

/// Runs words that ask for nothing: no byte is taken or written, and what is noted holds this piece.
pub(crate) fn expect_told(
    rt: &impl Abort,
    alloc: Global,
    words: &[&str],
    told: &[u8],
) -> Result<(), Fail> {
    let (status, mut left) = run_over(alloc, &Streams::calm(words, b"eq a x=1\n"))?;
    assert_eq!(rt; status.number(), 2);
    assert_eq!(rt; left.out.bytes(), b"".as_slice());
    assert!(rt; holds(left.notes.bytes(), told));
    let rest = read_all(alloc, &mut left.source, 1000)?;
    assert_eq!(rt; rest.as_slice(), b"eq a x=1\n".as_slice());
    Ok(())
}

#[test]
fn streams_that_fail(rt: HostRuntime) -> Result<(), Fail> {
    let pair = b"eq a x=1 y=1\neq b x=1 y=1\n";
    let cases = [
        Case {
            most: 16,
            out_fails: &[2],
            ..calm(
                pair,
                5,
                b"mixed-certificat",
                b"mixed-certificat",
                b"mixed: write fault\n",
            )
        },
        Case {
            most: 16,
            out_fails: &[2],
            status: 5,
            notes: b"mixed: write fault\n",
            ..layered(
                b"eq a x=1+?\n",
                b"columns 2\nc1 x\nc",
                b"columns 2\nc1 x\nc",
            )
        },
        Case {
            source_fails: &[1],
            ..calm(pair, 4, b"", b"", b"mixed: read fault\n")
        },
        Case {
            notes_fail: &[1],
            ..refused(b"eq a x=?+?\n", b"")
        },
        Case {
            most: 1,
            ..calm(
                b"eq a x=1\n",
                0,
                b"mixed-certificate 1\n",
                b"P 1: 1=1\nfirst |\nblock 1: 1 | q1 |\nlast |\nend\n",
                b"",
            )
        },
    ];
    for case in cases {
        expect_case(&rt, rt.alloc(), &case)?;
    }
    Ok(())
}

#[test]
fn inputs_that_come_in_pieces(rt: HostRuntime) -> Result<(), Fail> {
    let returned =
        b"mixed-certificate 1\nkind matrix\nlength 10\neq a x=1\r\n\nshape 1 1 1 0 1\nrank 1\nbase 1=1\nmatch\nS 1: 1=1\nU 1: 1=1\nP 1: 1=1\nfirst |\nblock 1: 1 | q1 |\nlast |\nend\n";
    let split = b"columns 2\nc1 x\nc2 *a\nq1 a 1=1 2=1\nt1 a 1 2\n";
    let cases = [
        Case {
            step: 1,
            ..calm(b"eq a x=1\r\n", 0, returned, returned, b"")
        },
        Case {
            step: 1,
            ..layered(b"eq a x=1+? # both\r\n#", split, split)
        },
        Case {
            source_fails: &[2],
            ..calm(b"foo\n", 4, b"", b"", b"mixed: read fault\n")
        },
        Case {
            words: LAYER,
            source_fails: &[2],
            ..calm(b"foo\n", 4, b"", b"", b"mixed: read fault\n")
        },
        Case {
            words: LAYER,
            step: 1,
            ..refused(b"foo\nbar\n", b"mixed: line 1: bad word\n")
        },
    ];
    for case in cases {
        expect_case(&rt, rt.alloc(), &case)?;
    }
    Ok(())
}

#[test]
fn a_comment_of_the_most_bytes(rt: HostRuntime) -> Result<(), Fail> {
    let input = vec![in rt.alloc(); b'#'; 8_388_608]?;
    let ends = b"##\nshape 0 0 0 0 0\nrank 0\nbase\nmatch\nfirst |\nlast |\nend\n";
    let begins = b"mixed-certificate 1\nkind matrix\nlength 8388608\n##";
    expect_case(&rt, rt.alloc(), &calm(&input, 0, begins, ends, b""))?;
    let input = vec![in rt.alloc(); b'#'; 8_388_609]?;
    let note = b"mixed: input longer than 8388608 bytes\n";
    expect_case(&rt, rt.alloc(), &refused(&input, note))
}

#[test]
fn as_many_unknowns_as_there_may_be(rt: HostRuntime) -> Result<(), Fail> {
    let mut text = String::new(rt.alloc());
    for number in 1..=4096 {
        text.push_str(&format!(in rt.alloc(); "unknown x{number}\n")?)?;
    }
    let shape = b"\nshape 0 4096 0 0 4096\n";
    expect_case(
        &rt,
        rt.alloc(),
        &certified_holding(text.as_bytes(), shape, b"\nend\n"),
    )?;
    text.push_str("unknown x4097\n")?;
    let note = b"mixed: line 4097: too many\n";
    expect_case(&rt, rt.alloc(), &refused(text.as_bytes(), note))
}
