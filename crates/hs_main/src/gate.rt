//! What a run lets its caller hold up.

/// Where threads are held up, to bring about an order of their steps. No step has a gate yet, since no thread runs.
pub trait Gate {}

/// Holds nothing up.
pub struct NoGate;

impl Gate for NoGate {}
