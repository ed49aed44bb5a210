//! A cell.

/// A free cell, or one used by a key and its value.
pub type Cell<K, V> = Option<(K, V)>;
