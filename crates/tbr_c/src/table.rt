//! A table that is open in a renderer that C holds.
ghost use Rattle.std.specs.Prelude.{◌≡◌, ◌≢◌, ◌↔◌, [], true, Ok, Err, IfOk, IfErr, OnOk};
ghost use Rattle.tbr_c_lines.specs.declared.fault.Fault.TheVariants as F;
ghost use Rattle.tbr_c_tables.specs.Given.{begun, call_given};
ghost use Rattle.tbr_c.specs.Page.{page_texts};
ghost use Rattle.tbr_c.specs.Tables.{levels_with};
ghost use Rattle.tbr_c.specs.Tables as model;

use crate::page::{Facts, Page};
use std::alloc::Global;
use tbr_c_lines::Fault;
use tbr_c_tables::{GivenTable, TableCall};

/// A renderer with a table that is open.
#[derive(Drop)]
pub struct OpenTable {
    /// The renderer, in which it is drawn at its end.
    pub page: Page,
    /// What is given of it so far.
    pub given: GivenTable,
}

impl OpenTable {
    /// A table that begins in a renderer. It refuses only where memory is refused.
    pub fn begun(alloc: Global, page: Page) -> Result<OpenTable, Fault>
        ensures page { IfOk result (λ table. table.page ≡ page) }
        ensures given { IfOk result (λ table. table.given ≡ begun (page_texts page)) }
        ensures memory { IfErr result (λ fault. fault ≡ F.OutOfMemory) }
    {
        let given = GivenTable::begun(alloc, page.texts())?;
        Ok(OpenTable { page, given })
    }

    /// Does a call of the table, and answers whether that has ended. After `OutOfMemory` the table isn't to be used any
    /// more, and each other refusal leaves it as it was.
    pub fn call(&mut self, call: TableCall) -> Result<bool, Fault>
        ensures page { self.new.page ≡ self.old.page }
        ensures given { OnOk result (call_given call self.old.given ≡ Ok self.new.given) }
        ensures over { IfOk result (λ is_over. (is_over ≡ true) ↔ (self.new.given.parts ≡ [])) }
        ensures refused { IfErr result (λ fault. fault ≢ F.OutOfMemory →
            (call_given call self.old.given ≡ Err fault) × (self.new ≡ self.old)) }
    {
        self.given.call(call)?;
        Ok(self.given.open_parts() == 0)
    }

    /// How many levels and parts are open.
    pub fn open_levels(&self) -> usize
        ensures { result ≡ levels_with self.now }
    {
        self.page
            .open_levels()
            .saturating_add(self.given.open_parts())
    }
}

/// Why a call of a table isn't possible where none is open, or `None` for the beginning of one. That is refused with
/// `StillOpen` where cells wait, and with `RowDoesNotFit` where cells overhang: both would come into its rows.
pub fn misplaced(facts: Facts, call: TableCall) -> Option<Fault>
    ensures { result ≡ model.misplaced facts call }
{
    match call {
        TableCall::StartTable if facts.waiting_cells > 0 => Some(Fault::StillOpen),
        TableCall::StartTable if facts.has_overhang => Some(Fault::RowDoesNotFit),
        TableCall::StartTable => None,
        TableCall::StartCell(_) | TableCall::StartInside(_) => Some(Fault::NoTable),
        TableCall::EndCell | TableCall::EndRow | TableCall::EndTable => Some(Fault::NothingToEnd),
    }
}
