//! Values that may go to another thread.

/// Takes what may go to another thread.
pub(crate) fn is_sent<T: Send>(_value: &T) {}
