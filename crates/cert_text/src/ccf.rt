//! A printed canonical form: its lines as values, and how they are put.

ghost use Rattle.std.specs.Prelude.{◌≡◌, ◌<◌, ℕ, ◌≤◌, length, slice_index_or};
ghost use Rattle.cert_text.specs.Contents.{Contents, contents_of, numbered_rows};
ghost use Rattle.cert_text.specs.Ranges.{IsCcf, AreSmall, AreSmallPairs, HasSmallKeys, IsSmallPart, AreSmallBlocks};
ghost use Rattle.std.specs.List.{All};
ghost use Rattle.cert_text.specs.Texts.{contents_text, shape_text, pair_text, matrices_text, parts_text};
ghost use Rattle.text_writer.specs.Texts.{Puts};

use crate::items::Items;
use crate::lines::{put_blocks, put_matrix, put_pattern, put_tail};
use crate::lists::put_pairs;
use crate::part::{CcfBlock, CcfPart};
use crate::shape::Shape;
use port_io::Sink;
use residue_field::Field;
use std::marker::Model;
use text_writer::TextWriter;

/// A printed combinatorial canonical form of a layered matrix: what a certificate has besides the input. (Murota,
/// chapter 4.) With Q rows of constants, T rows of symbols and N columns, all counted from 0:
///
/// - `rank`, the structural rank of the model, at most 8,192;
/// - `base`, Q rows and their base columns, by rising row;
/// - `mates`, T rows and their matched columns, by rising row;
/// - `s`, `u` (Q x Q) and `p` (Q x N), for each row the columns and numbers of its entries that are not 0, by rising column;
/// - `t` (T x N), for each row the columns of its symbols, rising;
/// - `first`, `blocks` and `last`, the parts; each block has a column, and its lower blocks stand before it.
#[derive(Drop)]
pub struct Ccf<F: Field> {
    shape: Shape,
    rank: usize,
    base: Items<(usize, usize)>,
    mates: Items<(usize, usize)>,
    s: Items<Items<(usize, F)>>,
    u: Items<Items<(usize, F)>>,
    p: Items<Items<(usize, F)>>,
    t: Items<Items<usize>>,
    first: CcfPart,
    blocks: Items<CcfBlock>,
    last: CcfPart,
}

impl<F: Field> Model for Ccf<F> {
    ghost use Rattle.cert_text.specs.Contents.{Contents, contents_of};
    ghost use Rattle.cert_text.specs.Ranges.{IsCcf};

    ghost Value = { Contents };

    ghost view = { λ c. contents_of F.number c.shape c.rank c.base c.mates c.s c.u c.p c.t c.first c.blocks c.last };

    ghost invariant = { λ c. IsCcf F.modulus
        (contents_of F.number c.shape c.rank c.base c.mates c.s c.u c.p c.t c.first c.blocks c.last) };
}

impl<F: Field> Ccf<F> {
    /// The form with these lines. It takes no memory.
    pub fn new(
        shape: Shape,
        rank: usize,
        base: Items<(usize, usize)>,
        mates: Items<(usize, usize)>,
        s: Items<Items<(usize, F)>>,
        u: Items<Items<(usize, F)>>,
        p: Items<Items<(usize, F)>>,
        t: Items<Items<usize>>,
        first: CcfPart,
        blocks: Items<CcfBlock>,
        last: CcfPart,
    ) -> Ccf<F>
        requires { IsCcf F.modulus (contents_of F.number shape rank base mates s u p t first blocks last) }
        ensures { result ≡ contents_of F.number shape rank base mates s u p t first blocks last }
    {
        Ccf {
            shape,
            rank,
            base,
            mates,
            s,
            u,
            p,
            t,
            first,
            blocks,
            last,
        }
    }

    /// Tells a proof what a printed form keeps. It does nothing when it runs.
    pub fn is_in_form(&self)
        ensures { IsCcf F.modulus self.now }
    {
        // a proof knows what the type keeps once a field is read
        let _ = &self.shape;
    }

    /// The numbers of equations, unknowns, rows and columns.
    pub fn shape(&self) -> Shape
        ensures shape { result ≡ self.now.shape }
        ensures ccf { IsCcf F.modulus self.now }
    {
        self.shape
    }

    /// The structural rank.
    pub fn rank(&self) -> usize
        ensures rank { result ≡ self.now.rank }
        ensures ccf { IsCcf F.modulus self.now }
    {
        self.rank
    }

    /// Q rows and their base columns, by rising row.
    pub fn base(&self) -> &Items<(usize, usize)>
        ensures base { result.now ≡ self.now.base }
        ensures ccf { IsCcf F.modulus self.now }
    {
        &self.base
    }

    /// T rows and their matched columns, by rising row.
    pub fn mates(&self) -> &Items<(usize, usize)>
        ensures mates { result.now ≡ self.now.mates }
        ensures ccf { IsCcf F.modulus self.now }
    {
        &self.mates
    }

    /// The rows of S, Q x Q: the columns and numbers of the entries that are not 0.
    pub fn s(&self) -> &Items<Items<(usize, F)>>
        ensures s { numbered_rows F.number result.now ≡ self.now.s }
        ensures ccf { IsCcf F.modulus self.now }
    {
        &self.s
    }

    /// The rows of U, Q x Q, the inverse of S.
    pub fn u(&self) -> &Items<Items<(usize, F)>>
        ensures u { numbered_rows F.number result.now ≡ self.now.u }
        ensures ccf { IsCcf F.modulus self.now }
    {
        &self.u
    }

    /// The rows of P, Q x N: S times the constants.
    pub fn p(&self) -> &Items<Items<(usize, F)>>
        ensures p { numbered_rows F.number result.now ≡ self.now.p }
        ensures ccf { IsCcf F.modulus self.now }
    {
        &self.p
    }

    /// The rows of T, T x N: the columns of the symbols.
    pub fn t(&self) -> &Items<Items<usize>>
        ensures t { result.now ≡ self.now.t }
        ensures ccf { IsCcf F.modulus self.now }
    {
        &self.t
    }

    /// The first tail.
    pub fn first(&self) -> &CcfPart
        ensures first { result.now ≡ self.now.first }
        ensures ccf { IsCcf F.modulus self.now }
    {
        &self.first
    }

    /// The blocks, in order.
    pub fn blocks(&self) -> &Items<CcfBlock>
        ensures blocks { result.now ≡ self.now.blocks }
        ensures ccf { IsCcf F.modulus self.now }
    {
        &self.blocks
    }

    /// The last tail.
    pub fn last(&self) -> &CcfPart
        ensures last { result.now ≡ self.now.last }
        ensures ccf { IsCcf F.modulus self.now }
    {
        &self.last
    }

    /// Puts the lines of a certificate from the shape on. It takes no memory.
    pub fn put<K: Sink>(&self, out: &mut TextWriter<'_, K>)
        ensures { Puts K.Sink out.old out.new (contents_text self.now) }
    {
        put_shape(out, self.shape);
        put_pair(out, self.rank, self.base.as_slice(), self.mates.as_slice());
        put_matrices(
            out,
            self.s.as_slice(),
            self.u.as_slice(),
            self.p.as_slice(),
            self.t.as_slice(),
        );
        put_parts(out, &self.first, self.blocks.as_slice(), &self.last);
        out.piece(b"end\n");
    }
}

// Puts the line of the shape.
fn put_shape<K: Sink>(out: &mut TextWriter<'_, K>, shape: Shape)
    ensures { Puts K.Sink out.old out.new (shape_text shape) }
{
    out.piece(b"shape");
    out.number(b' ', shape.equations as u64);
    out.number(b' ', shape.unknowns as u64);
    out.number(b' ', shape.q_rows as u64);
    out.number(b' ', shape.t_rows as u64);
    out.number(b' ', shape.columns as u64);
    out.piece(b"\n");
}

// Puts the lines of the rank, the base and the match.
fn put_pair<K: Sink>(
    out: &mut TextWriter<'_, K>,
    rank: usize,
    base: &[(usize, usize)],
    mates: &[(usize, usize)],
)
    requires base { AreSmallPairs base.now }
    requires mates { AreSmallPairs mates.now }
    ensures { Puts K.Sink out.old out.new (pair_text rank base.now mates.now) }
{
    out.piece(b"rank");
    out.number(b' ', rank as u64);
    out.piece(b"\nbase");
    put_pairs(out, base);
    out.piece(b"\nmatch");
    put_pairs(out, mates);
    out.piece(b"\n");
}

// Puts the lines of S, U, P and T.
fn put_matrices<F: Field, K: Sink>(
    out: &mut TextWriter<'_, K>,
    s: &[Items<(usize, F)>],
    u: &[Items<(usize, F)>],
    p: &[Items<(usize, F)>],
    t: &[Items<usize>],
)
    requires s { All HasSmallKeys s.now }
    requires u { All HasSmallKeys u.now }
    requires p { All HasSmallKeys p.now }
    requires t { All AreSmall t.now }
    ensures { Puts K.Sink out.old out.new (matrices_text (numbered_rows F.number s.now) (numbered_rows F.number u.now)
        (numbered_rows F.number p.now) t.now) }
{
    put_matrix(out, b"S", s);
    put_matrix(out, b"U", u);
    put_matrix(out, b"P", p);
    put_pattern(out, b"T", t);
}

// Puts the lines of the parts.
fn put_parts<K: Sink>(
    out: &mut TextWriter<'_, K>,
    first: &CcfPart,
    blocks: &[CcfBlock],
    last: &CcfPart,
)
    requires first { IsSmallPart first.now }
    requires blocks { AreSmallBlocks blocks.now }
    requires last { IsSmallPart last.now }
    ensures { Puts K.Sink out.old out.new (parts_text first.now blocks.now last.now) }
{
    put_tail(out, b"first", first);
    put_blocks(out, blocks);
    put_tail(out, b"last", last);
}
