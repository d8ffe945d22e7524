//! Turns a count list into lines that correct the record, and notes on the rest.

mod audit_fault;
mod auditing;
mod containers;
pub mod laws;
mod lines;
mod notes;
mod sightings;
mod unmoved;

pub use audit_fault::AuditFault;
pub use auditing::{AuditOptions, AuditText, audit};
