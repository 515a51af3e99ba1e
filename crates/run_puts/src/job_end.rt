use crate::Status;

/// How a job ended, and the text that it writes.
#[derive(Drop)]
pub struct JobEnd {
    pub status: Status,
    pub text: Vec<u8>,
}
