ghost use Rattle.std.specs.Prelude.{◌≡◌, None};

use crate::status::Status;

/// How a run ended, and what there is to tell beside that.
#[derive(Drop)]
pub struct Ending {
    /// How it ended.
    pub status: Status,
    /// The text of the summary: after [`Status::Done`] of generated work.
    pub summary: Option<Vec<u8>>,
}

impl Ending {
    /// An end without a summary.
    pub fn short(status: Status) -> Ending
        ensures status { result.status ≡ status }
        ensures summary { result.summary ≡ None }
    {
        Ending {
            status,
            summary: None,
        }
    }
}
