//! Linear relaxations of the nodes of a search over CoPhy's programme, in `f64`: the programme as a sparse matrix, the view of
//! a node, an interior point method for its relaxation, and the Lagrangian bound by the rents that this finds.
//!
//! A `Matrix` has what candidates offer below what exists. A `View` has of that what matters at a node. A `Relaxation` solves a
//! view, a `Lagrangian` evaluates it at rents, and `Losses` tell by how much its value rises where a candidate is in or out.
//!
//! Nothing here is relied on: what is found is a proposal, which is checked elsewhere in whole numbers. So functions say
//! nothing of what they find; that they end and can't fail is proved.
#![tactic(auto)]

mod capping;
mod cholesky;
mod fixing;
mod interior;
mod lagrangian;
mod matrix;
mod places;
mod relaxation;
mod view;

pub use fixing::{Losses, Rises};
pub use lagrangian::Lagrangian;
pub use matrix::{
    LARGEST, Link, MOST_UPKEEP, Matrix, MatrixPart, NO_PRICE, Offer, Row, Template, float_of,
};
pub use places::{NO_PLACES, Places, append, at, put};
pub use relaxation::Relaxation;
pub use view::{View, ViewNode};
