//! The names of collections and of their locations.

pub use cidr_commands::Ident;
