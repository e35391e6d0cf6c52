// What can keep a measurement from being made.
use modes::refusal::Refusal;
use std::alloc::AllocError;
use std::io;

#[derive(Drop)]
pub enum Failure {
    Output(io::Error),
    Declined(Refusal),
    Memory,
}

impl From<io::Error> for Failure {
    fn from(error: io::Error) -> Failure {
        Failure::Output(error)
    }
}

impl From<Refusal> for Failure {
    fn from(refusal: Refusal) -> Failure {
        Failure::Declined(refusal)
    }
}

impl From<AllocError> for Failure {
    fn from(_e: AllocError) -> Failure {
        Failure::Memory
    }
}
