//! What the control files show of a monitor.

use rv_model::{Name, Scope, SpecKind};

/// A monitor, without its specification.
#[derive(Debug, Drop)]
pub struct MonitorInfo {
    pub name: Name,
    /// The container's place in the list.
    pub container: Option<u8>,
    pub kind: SpecKind,
    pub scope: Scope,
    /// The specification's file, as the bindings spell it.
    pub file: Name,
}
