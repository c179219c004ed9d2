//! Annotations one on another, each with those below it.
ghost use Rattle.std.specs.Prelude.{◌≡◌, ◌-◌, ◌++◌, ◌∷◌, [], length, take, reverse, IfOk};
ghost use Rattle.std.specs.List.{AllZip};
ghost use Rattle.tbr_annotations.specs.Chain.{annotations_of, CountsWell, equal_down};

use std::alloc::{AllocError, Global};
use std::rc::Rc;
use tbr_tagged::OutOfMemory;

/// No annotation, or the last one with those below it, which other chains may share.
#[cycle(chain)]
pub enum Chain<A> {
    End,
    Last(Rc<Node<A>>),
}

#[cycle(chain)]
#[derive(Drop)]
pub struct Node<A> {
    pub annotation: A,
    /// How many annotations there are, this one among them.
    len: usize,
    pub below: Chain<A>,
}

/// In a loop, so that a long chain doesn't use up the stack.
impl<A: Drop> Drop for Chain<A> {
    fn drop(mut self) {
        loop {
            match self {
                Chain::End => return,
                Chain::Last(node) => match Rc::into_inner(node) {
                    None => return,
                    Some(Node { below, .. }) => self = below,
                },
            }
        }
    }
}

impl<A: Drop> Chain<A> {
    /// The chain, shared by one more owner. It takes no memory, and refuses only where the number of owners would pass
    /// `usize`.
    pub fn share(&self) -> Result<Chain<A>, AllocError>
        ensures annotations { IfOk result (λ chain. annotations_of chain ≡ annotations_of self.now) }
        ensures counts { CountsWell self.now → IfOk result CountsWell }
    {
        Ok(match self {
            Chain::End => Chain::End,
            Chain::Last(node) => Chain::Last(node.clone()?),
        })
    }

    /// The chain with one annotation more. It refuses where memory is refused, and where the number of annotations
    /// would pass `usize`.
    pub fn push(self, alloc: Global, annotation: A) -> Result<Chain<A>, OutOfMemory>
        requires { CountsWell self }
        ensures annotations { IfOk result (λ chain. annotations_of chain ≡ annotations_of self ++ annotation ∷ []) }
        ensures counts { IfOk result CountsWell }
    {
        let Some(len) = self.len().checked_add(1) else {
            return Err(OutOfMemory);
        };
        let node = Node {
            annotation,
            len,
            below: self,
        };
        Ok(Chain::Last(Rc::new(alloc, node)?))
    }
}

impl<A> Chain<A> {
    /// How many annotations there are.
    pub fn len(&self) -> usize
        requires { CountsWell self.now }
        ensures { result ≡ length (annotations_of self.now) }
    {
        match self {
            Chain::End => 0,
            Chain::Last(node) => node.len,
        }
    }

    /// What is below the last `count` annotations.
    pub fn below(&self, count: usize) -> &Chain<A>
        ensures annotations { let held = annotations_of self.now in
            annotations_of result.now ≡ take (length held - count) held }
        ensures counts { CountsWell self.now → CountsWell result.now }
    {
        let mut chain = self;
        for _ in 0..count {
            chain = match chain {
                Chain::End => return chain,
                Chain::Last(node) => &node.below,
            };
        }
        chain
    }

    /// Copies of the annotations, the last one first. It refuses only where memory is refused.
    pub fn copied_down(&self, alloc: Global) -> Result<Vec<A>, OutOfMemory>
    where
        A: Clone,
        requires { CountsWell self.now }
        ensures { IfOk result (λ copies. AllZip A.is_clone (annotations_of self.now) (reverse copies.items)) }
    {
        let mut copies = Vec::with_capacity(alloc, self.len())?;
        let mut chain = self;
        while let Chain::Last(node) = chain {
            copies.push(node.annotation.clone()?)?;
            chain = &node.below;
        }
        Ok(copies)
    }
}

/// Whether two chains have equal annotations, from the last ones on.
pub fn equal_chains<A: PartialEq>(a: &Chain<A>, b: &Chain<A>) -> bool
    ensures { result ≡ equal_down A.eq a.now b.now }
{
    let mut a = a;
    let mut b = b;
    while let (Chain::Last(m), Chain::Last(n)) = (a, b) {
        if m.annotation != n.annotation {
            return false;
        }
        a = &m.below;
        b = &n.below;
    }
    matches!((a, b), (Chain::End, Chain::End))
}
