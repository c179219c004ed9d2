//! Lists of the annotations that texts are under.
ghost use Rattle.std.specs.Prelude.{◌≡◌, ◌-◌, ◌++◌, ◌∷◌, [], length, take, map, IfOk, IsTrue};
ghost use Rattle.tbr_annotations.specs.Open.{HasLast};

use crate::chain::{Chain, equal_chains};
use std::alloc::{AllocError, Global};
use std::fmt;
use std::marker::Model;
use tbr_tagged::OutOfMemory;
use tbr_tags::{Meanings, Tag};

/// A list of annotations. Its copies and the lists that are made from it share what they have in common, so that many
/// lists of many annotations take little memory. A contract sees the list of what they mean.
#[derive(Drop)]
pub struct Annotations<A: Tag> {
    chain: Chain<A>,
}

impl<A: Tag> Model for Annotations<A> {
    ghost use Rattle.std.specs.Prelude.{List, map};
    ghost use Rattle.tbr_annotations.specs.Chain.{annotations_of, CountsWell};

    ghost Value = { List A.Meaning };

    ghost view = { λ a. map A.meaning (annotations_of a.chain) };

    ghost invariant = { λ a. CountsWell a.chain };
}

impl<A: Tag> Annotations<A> {
    /// No annotation. It takes no memory.
    pub fn new() -> Annotations<A>
        ensures { result ≡ [] }
    {
        Annotations { chain: Chain::End }
    }

    /// How many annotations there are.
    pub fn len(&self) -> usize
        ensures { result ≡ length self.now }
    {
        self.chain.len()
    }

    /// Copies of the annotations. It refuses only where memory is refused.
    pub fn to_vec(&self, alloc: Global) -> Result<Vec<A>, OutOfMemory>
        ensures { IfOk result (λ copies. map A.meaning copies.items ≡ self.now) }
    {
        let mut copies = self.chain.copied_down(alloc)?;
        copies.reverse();
        Ok(copies)
    }

    /// These annotations and one more. It refuses only where memory is refused.
    pub fn with(&self, alloc: Global, annotation: A) -> Result<Annotations<A>, OutOfMemory>
        ensures { IfOk result (λ more. more ≡ self.now ++ A.meaning annotation ∷ []) }
    {
        let chain = self.chain.share()?.push(alloc, annotation)?;
        Ok(Annotations { chain })
    }

    /// Whether the last annotation is equal to this one.
    pub(crate) fn ends_with(&self, annotation: &A) -> bool
        ensures { IsTrue result → HasLast self.now (A.meaning annotation.now) }
    {
        match &self.chain {
            Chain::End => false,
            Chain::Last(node) => node.annotation == *annotation,
        }
    }

    /// These annotations without the last `count`. It takes no memory, and refuses only where the number of lists that
    /// share them would pass `usize`.
    pub fn without_last(&self, count: usize) -> Result<Annotations<A>, OutOfMemory>
        ensures { IfOk result (λ fewer. fewer ≡ take (length self.now - count) self.now) }
    {
        let chain = self.chain.below(count).share()?;
        Ok(Annotations { chain })
    }
}

/// A copy shares all annotations, and takes no memory.
impl<A: Tag> Clone for Annotations<A> {
    ghost use Rattle.std.specs.Prelude.{◌≡◌};

    ghost is_clone = { λ annotations copy. copy ≡ annotations };

    fn clone(&self) -> Result<Annotations<A>, AllocError> {
        let chain = self.chain.share()?;
        Ok(Annotations { chain })
    }
}

/// Two lists are equal where they have the same number of annotations, equal in order. Lists of one length are compared
/// from their last annotations on.
impl<A: Tag> PartialEq for Annotations<A> {
    ghost use Rattle.tbr_annotations.specs.Annotations.{same_annotations};
    ghost use Rattle.tbr_tags.specs.Tells.{told_per, lists_tell};

    ghost eq = { same_annotations A.same };

    ghost laws = { told_per (same_annotations A.same) (lists_tell A.same A.tells) };

    fn eq(&self, other: &Annotations<A>) -> bool {
        self.len() == other.len() && equal_chains(&self.chain, &other.chain)
    }
}

impl<A: Tag> Eq for Annotations<A> {
    ghost use Rattle.tbr_annotations.specs.Annotations.{same_annotations};
    ghost use Rattle.tbr_tags.specs.Tells.{told_equiv, lists_tell};

    ghost laws = { told_equiv (same_annotations A.same) (lists_tell A.same A.tells) };
}

impl<A: Tag> Tag for Annotations<A> {
    ghost use Rattle.tbr_annotations.specs.Annotations.{same_annotations};
    ghost use Rattle.tbr_tags.specs.Tells.{lists_tell, equal_itself};

    type Meaning = Meanings<A::Meaning>;

    ghost meaning = { λ annotations. annotations };

    ghost same = { same_annotations A.same };

    ghost tells = { lists_tell A.same A.tells };

    ghost equal_by_meaning = { lists_tell A.same A.tells };

    ghost copies_equal = { equal_itself (same_annotations A.same) (lists_tell A.same A.tells) };
}

/// The annotations, the last one first.
impl<A: Tag + fmt::Debug> fmt::Debug for Annotations<A> {
    fn fmt<F: fmt::Write>(&self, f: &mut fmt::Formatter<F>) -> fmt::Result {
        let mut list = f.debug_list();
        let mut chain = &self.chain;
        while let Chain::Last(node) = chain {
            list.entry(&node.annotation);
            chain = &node.below;
        }
        list.finish()
    }
}
