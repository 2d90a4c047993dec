//! The commands on oriented matroids of any rank: each answers by an [`Answer`](om_reply::Answer).
#![tactic(auto)]

mod applying;
mod conversion;
mod convex_hull;
mod keeping;
mod lexical_extension;
mod membership;
mod operation;
mod painting;
mod three_terms;
mod unmade;
mod upgrading;

pub use conversion::convert;
pub use convex_hull::find_hull;
pub use lexical_extension::extend_lexically;
pub use membership::find_membership;
pub use operation::{Operation, operate};
pub use painting::find_painting;
pub use three_terms::test_three_terms;
pub use upgrading::upgrade;
