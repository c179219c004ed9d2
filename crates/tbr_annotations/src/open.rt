//! The annotations that are open.
ghost use Rattle.std.specs.Prelude.{◌≡◌, ◌-◌, ◌++◌, ◌∷◌, [], length, take, IfOk, IfSome, OnOk, OnErr};

use crate::annotations::Annotations;
use std::alloc::Global;
use std::fmt;
use std::marker::Model;
use tbr_tagged::OutOfMemory;
use tbr_tags::Tag;

/// The annotations of the text that is added next. One is added to them, or the last one is removed. A contract sees
/// the list of what they mean.
#[derive(Drop)]
pub struct OpenAnnotations<A: Tag> {
    list: Annotations<A>,
    /// How many of the last ones are closed but still held: none, unless the others couldn't be shared once more.
    closed: usize,
    /// Lists that were made of these last.
    extended: Option<Box<Extended<A>>>,
}

/// Two lists, each the open annotations and one more.
#[derive(Drop)]
struct Extended<A: Tag> {
    first: Annotations<A>,
    second: Annotations<A>,
}

impl<A: Tag> Model for OpenAnnotations<A> {
    ghost use Rattle.std.specs.Prelude.{List, ◌-◌, length, take, IfSome};
    ghost use Rattle.tbr_annotations.specs.Open.{HasOneMore};

    ghost Value = { List A.Meaning };

    ghost view = { λ a. take (length a.list - a.closed) a.list };

    ghost invariant = { λ a. let list = take (length a.list - a.closed) a.list in
        IfSome a.extended (λ b. HasOneMore list b.value.first × HasOneMore list b.value.second) };
}

impl<A: Tag> Extended<A> {
    /// Copies of the lists. They take no memory.
    fn copies(&self) -> Result<(Annotations<A>, Annotations<A>), OutOfMemory>
        ensures { IfOk result (λ r. (r.0 ≡ self.now.first) × (r.1 ≡ self.now.second)) }
    {
        Ok((self.first.clone()?, self.second.clone()?))
    }
}

impl<A: Tag> OpenAnnotations<A> {
    /// No annotation. It takes no memory.
    pub fn new() -> OpenAnnotations<A>
        ensures { result ≡ [] }
    {
        OpenAnnotations::of(Annotations::new())
    }

    /// These annotations.
    pub fn of(list: Annotations<A>) -> OpenAnnotations<A>
        ensures { result ≡ list }
    {
        OpenAnnotations {
            list,
            closed: 0,
            extended: None,
        }
    }

    /// The annotations. It takes no memory, and refuses only where the number of lists that share them would pass
    /// `usize`.
    pub fn list(&self) -> Result<Annotations<A>, OutOfMemory>
        ensures { IfOk result (λ list. list ≡ self.now) }
    {
        self.list.without_last(self.closed)
    }

    /// The lists that were made last, if they end with these annotations.
    fn extended_by(&self, first: &A, second: &A) -> Option<&Extended<A>>
        ensures { IfSome result (λ lists. (lists.now.first ≡ self.now ++ A.meaning first.now ∷ [])
            × (lists.now.second ≡ self.now ++ A.meaning second.now ∷ [])) }
    {
        let lists = self.extended.as_ref()?;
        if lists.first.ends_with(first) && lists.second.ends_with(second) {
            return Some(lists);
        }
        None
    }

    /// The annotations and one more, for each of two. Where the same two come again, it takes no memory.
    pub fn with_each(
        &mut self,
        alloc: Global,
        first: A,
        second: A,
    ) -> Result<(Annotations<A>, Annotations<A>), OutOfMemory>
        ensures first { IfOk result (λ r. r.0 ≡ self.old ++ A.meaning first ∷ []) }
        ensures second { IfOk result (λ r. r.1 ≡ self.old ++ A.meaning second ∷ []) }
        ensures same { self.new ≡ self.old }
    {
        if let Some(lists) = self.extended_by(&first, &second) {
            return lists.copies();
        }
        let list = self.list()?;
        let lists = Extended {
            first: list.with(alloc, first)?,
            second: list.with(alloc, second)?,
        };
        let copies = lists.copies()?;
        self.extended = Some(Box::new(alloc, lists)?);
        Ok(copies)
    }

    /// Adds an annotation. Where memory is refused, nothing changes.
    pub fn push(&mut self, alloc: Global, annotation: A) -> Result<(), OutOfMemory>
        ensures ok { OnOk result (self.new ≡ self.old ++ A.meaning annotation ∷ []) }
        ensures err { OnErr result (self.new ≡ self.old) }
    {
        let list = self.list()?.with(alloc, annotation)?;
        *self = OpenAnnotations::of(list);
        Ok(())
    }

    /// Removes the last annotation, if there is one.
    pub fn pop(&mut self)
        ensures { self.new ≡ take (length self.old - 1) self.old }
    {
        if self.closed < self.list.len() {
            self.closed += 1;
            self.extended = None;
        }
        self.settle();
    }

    /// Drops the annotations that are closed, if the others can be shared once more.
    fn settle(&mut self)
        ensures { self.new ≡ self.old }
    {
        if let Ok(list) = self.list() {
            *self = OpenAnnotations::of(list);
        }
    }
}

/// The annotations, the last one first.
impl<A: Tag + fmt::Debug> fmt::Debug for OpenAnnotations<A> {
    fn fmt<F: fmt::Write>(&self, f: &mut fmt::Formatter<F>) -> fmt::Result {
        fmt::Debug::fmt(&self.list, f)
    }
}
