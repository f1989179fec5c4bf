//! The words of linear algebra modulo a prime: independent columns, rank, products, bases. No code.
#![tactic(auto)]
