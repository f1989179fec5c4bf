//! The words of mixed matrices: models, layered matrices, structural rank, pairs and minimisers, forms and
//! canonical parts (Murota, Matrices and Matroids for Systems Analysis, chapters 2 and 4). No code.
#![tactic(auto)]
