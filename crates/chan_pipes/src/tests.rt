//! The adapters, at the system.

mod children;
mod connections;
