// An open sheet: its state, used together with the holder of its blocks.
use crate::state::State;
use std::marker::PhantomData;

// The kind of permutation is fixed by the type.
#[derive(Drop)]
pub struct Sheet<K> {
    pub(crate) state: State,
    pub(crate) kind: PhantomData<K>,
}
