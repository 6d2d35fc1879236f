//! The version of the engine.

/// The version of the engine: major, minor and patch, as `revroute --version` and the library for C report it.
pub const VERSION: &str = "0.3.0";
