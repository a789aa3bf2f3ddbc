use sig_model::Origin;
use sig_program::Script;
use sig_record::{MergedAt, Report};

/// What a chart is laid from: the script, the record, the origins of its signals, and the events that are shown.
#[derive(Clone, Copy)]
pub(crate) struct Sources<'a> {
    /// The script.
    pub(crate) script: &'a Script,
    /// The processes of its record.
    pub(crate) reports: &'a [Report],
    /// Which event sent each signal.
    pub(crate) origins: &'a [Origin],
    /// The events that are shown, in the order of their stamps.
    pub(crate) shown: &'a [MergedAt],
}
