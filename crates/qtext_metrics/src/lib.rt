//! A board, and what a service has counted, as text for a monitor, in the text format of Prometheus.
#![tactic(auto)]

pub use metrics::put_metrics;
pub use mishap::{LineFault, MISHAPS, Mishap};
pub use service::put_service;
pub use service_counts::{CLIENTS, ServiceCounts};

mod counter;
mod family;
mod metrics;
mod mishap;
mod service;
mod service_counts;
