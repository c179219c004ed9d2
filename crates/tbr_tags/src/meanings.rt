//! Lists of meanings.
use std::marker::{Model, PhantomData};

/// What a list of tags means: the list of their meanings. None is ever made.
pub struct Meanings<M> {
    of: PhantomData<M>,
}

impl<M> Model for Meanings<M> {
    ghost use Rattle.std.specs.Prelude.{List, []};

    ghost Value = { List M };

    ghost view = { λ _. [] };
}
