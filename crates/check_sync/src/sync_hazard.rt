//! Why two accesses are not synchronized.

/// Why two accesses that touch the same memory are not synchronized.
#[derive(Clone, Copy, Debug, PartialEq, Eq)]
pub enum Flaw {
    /// H2: neither node happens before the other.
    Unordered,
    /// H3: what the first stored is not made available before the second.
    NotAvailable,
    /// H4: what the first left is not made visible to the second.
    NotVisible,
}

/// Two nodes with accesses that are not synchronized, and why. The first is earlier in the order.
#[derive(Clone, Copy, Debug, PartialEq, Eq)]
pub struct SyncHazard {
    pub first: u32,
    pub second: u32,
    pub flaw: Flaw,
}
