//! How long the texts of right certificates are.
#![tactic(auto)]

mod laws;

pub use laws::{
    certificate_texts_are_short, each_certificate_is_below, netlists_have_few_names,
    texts_have_few_names,
};
