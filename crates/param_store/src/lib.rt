//! The numbers of quantified formulas, and what a raw offer is: a Step that may be made, before normalising.
#![tactic(auto)]

mod fault;
mod offer;
mod opening;
mod params;
mod quantified;

pub use fault::OfferFault;
pub use offer::{Act, FormLists, RawOffer, RawOffers};
pub use opening::{at_part, opened, signed};
pub use params::Params;
pub use quantified::{Binder, Quantified, QuantifierKind, as_quantified};
