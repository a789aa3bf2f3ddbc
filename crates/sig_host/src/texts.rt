/// What is written of a run that is done.
#[derive(Drop)]
pub struct Texts {
    /// The text of the record.
    pub record: Vec<u8>,
    /// The text of the summary, where one is asked for.
    pub summary: Option<Vec<u8>>,
}
