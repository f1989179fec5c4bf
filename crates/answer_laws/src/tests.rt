//! A run with no more room than an answer may need, and a row transform times its inverse.

ghost use Rattle.std.specs.Prelude.{◌≡◌, ◌∷◌, [], codes, map, IfOk};
ghost use Rattle.std.specs.String.{string_bytes};

use crate::answer;
use dense_q::{Mat, NoMemory};
use residue_field::{Field, Res};
use std::alloc::{AllocError, Global};
use std::test::Fail;

// The words that ask for the certificate of an equation list.
fn words(alloc: Global) -> Result<Vec<String>, AllocError>
    ensures { IfOk result (λ words. map string_bytes words.items
        ≡ codes "mixed" ∷ codes "analyse" ∷ codes "matrix" ∷ []) }
{
    let mut words = Vec::with_capacity(alloc, 3)?;
    words.push(String::from_str(alloc, "mixed")?)?;
    words.push(String::from_str(alloc, "analyse")?)?;
    words.push(String::from_str(alloc, "matrix")?)?;
    Ok(words)
}

#[test]
#[tactic(auto, using(crate::proofs::Rooms::matrix_fits))]
fn an_equation_is_answered_in_its_room(rt: HostRuntime) -> Result<(), Fail> {
    let alloc = rt.alloc();
    let words = words(alloc)?;
    // 9 bytes, and so at most 9 rows of each kind and 18 columns
    let (status, out) = answer(alloc, &words, b"eq a x=1\n", 6_432)?;
    assert_eq!(rt; status.number(), 0);
    assert_eq!(rt;
        out.bytes(),
        b"mixed-certificate 1\nkind matrix\nlength 9\neq a x=1\n\nshape 1 1 1 0 1\nrank 1\nbase 1=1\nmatch\n\
          S 1: 1=1\nU 1: 1=1\nP 1: 1=1\nfirst |\nblock 1: 1 | q1 |\nlast |\nend\n"
            .as_slice()
    );
    Ok(())
}

// The matrix with these rows.
fn matrix(alloc: Global, rows: &[[u64; 2]]) -> Result<Mat<Res>, NoMemory> {
    let mut all = Mat::zeros(alloc, 0, 2)?;
    for row in rows {
        if all.rows() < 8_192 && all.cols() == 2 {
            all.push_row(&[Res::of(row[0]), Res::of(row[1])])?;
        }
    }
    Ok(all)
}

fn value<F: Field>(matrix: &Mat<F>, row: usize, column: usize) -> Option<F> {
    if row < matrix.rows() && column < matrix.cols() {
        Some(matrix.get(row, column))
    } else {
        None
    }
}

// S and U are those of a certificate of `eq a x=1 y=1` and `eq b x=1 y=?`.
#[test]
fn a_transform_times_its_inverse_is_one(rt: HostRuntime) -> Result<(), Fail> {
    let s = matrix(rt.alloc(), &[[0, 1], [1, 65_520]])?;
    let u = matrix(rt.alloc(), &[[1, 1], [1, 0]])?;
    assert_eq!(rt; s.cols(), u.rows());
    let product = Mat::product(rt.alloc(), &s, &u)?;
    for (row, column, want) in [(0, 0, 1), (0, 1, 0), (1, 0, 0), (1, 1, 1)] {
        assert_eq!(rt;
            value(&product, row, column).map(|number| number.value()),
            Some(want)
        );
    }
    Ok(())
}
