// Why a program does not end as it should.
use crate::refusal::{Refusal, Words};
use packed::{Fault, Limit};
use std::alloc::AllocError;
use std::io;
use thiserror::Error;

#[derive(Drop, Error)]
pub enum Trouble<V: Words> {
    #[error("there is no memory")]
    Memory(#[from(alloc)] AllocError),
    #[error("the types of the list break a limit")]
    Shapes(#[from] Limit),
    #[error("{0}")]
    Refused(Refusal<'static, V>),
    #[error(transparent)]
    Output(#[from] io::Error),
}

impl<V: Words> From<Fault> for Trouble<V> {
    fn from(fault: Fault) -> Trouble<V> {
        Trouble::Refused(Refusal::new(V::subject(), fault))
    }
}
