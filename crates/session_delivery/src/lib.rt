//! The worker that serves a session: it begins the session, gives it the parcels of the shelf,
//! carries out its verdicts, and gives it its feeders back as it ends.
#![tactic(auto)]

mod deliver_done;
mod deliver_end;
mod deliver_start;
mod deliver_work;
mod delivered;
mod deliverer;
mod giving_back;
pub mod laws;
mod leaving;
mod start_all;
#[cfg(test)]
mod tests;
mod verdicts;

pub use deliver_done::{DeliverDone, FromDeliverer};
pub use deliver_end::DeliverEnd;
pub use deliver_start::DeliverStart;
pub use deliver_work::{DELIVERER, start_deliverer};
pub use delivered::Delivered;
pub use deliverer::Deliverer;
