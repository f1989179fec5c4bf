//! Row operations, and products with an invertible matrix.
ghost use Rattle.linear_algebra_laws.specs.RowOperationLaws.{InverseOnOneSideIsInverse, InvertibleProductsKeepIndependence};
ghost use Rattle.linear_algebra_laws.specs.RowOperationLaws.{InvertibleProductsKeepTheRank, AddedRowsKeepTheKernel};
ghost use Rattle.linear_algebra_laws.specs.RowOperationLaws.{ScaledRowsKeepTheKernel, SameKernelHasTheRank};
ghost use Rattle.linear_algebra_laws.specs.RowOperationLaws.{EntriesDecideTheKernel, AddedRowsKeepTheInverse};
ghost use Rattle.linear_algebra_laws.specs.RowOperationLaws.{ScaledRowsKeepTheInverse};

/// For square matrices, `S * U = 1` alone shows that `U * S = 1`.
pub fn inverse_on_one_side_is_inverse()
    ensures { InverseOnOneSideIsInverse }
{}

/// Columns are independent in a matrix exactly where they are in its product with an invertible one.
pub fn invertible_products_keep_independence()
    ensures { InvertibleProductsKeepIndependence }
{}

/// A product with an invertible matrix keeps every rank.
pub fn invertible_products_keep_the_rank()
    ensures { InvertibleProductsKeepTheRank }
{}

/// A multiple of a row added to another row keeps the kernel.
pub fn added_rows_keep_the_kernel()
    ensures { AddedRowsKeepTheKernel }
{}

/// A row multiplied by a number that is not zero keeps the kernel.
pub fn scaled_rows_keep_the_kernel()
    ensures { ScaledRowsKeepTheKernel }
{}

/// Matrices with the same kernel have the same ranks.
pub fn same_kernel_has_the_rank()
    ensures { SameKernelHasTheRank }
{}

/// Matrices whose entries agree have the same kernel.
pub fn entries_decide_the_kernel()
    ensures { EntriesDecideTheKernel }
{}

/// A row added in a matrix, and its opposite in the transpose of the inverse, leave inverses.
pub fn added_rows_keep_the_inverse()
    ensures { AddedRowsKeepTheInverse }
{}

/// A row multiplied in a matrix, and divided in the transpose of the inverse, leave inverses.
pub fn scaled_rows_keep_the_inverse()
    ensures { ScaledRowsKeepTheInverse }
{}
