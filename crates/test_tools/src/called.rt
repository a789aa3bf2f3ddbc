//! Calls of the tool.

use test_shared::Tool;

/// A call of the tool.
pub(crate) type Called = test_shared::Called<Tool>;
