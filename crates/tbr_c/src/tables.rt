//! Calls of tables that find their widths.
ghost use Rattle.std.specs.Prelude.{◌≡◌, Ok};
ghost use Rattle.tbr_c_tables.specs.declared.table_call.TableCall.TheVariants as call;
ghost use Rattle.tbr_c.specs.Answers.{GivesTable};
ghost use Rattle.tbr_c.specs.Arguments.{table_cell_asked};

use crate::arguments;
use crate::handle::{Handle, Returned, hand_back};
use tbr_c_lines::{Fault, status};
use tbr_c_tables::TableCall;

/// Does the call that arguments ask for, or refuses those that are none.
fn run(renderer: Handle, read: Result<TableCall, Fault>, back: &mut Returned) -> u32
    ensures { GivesTable renderer.value read back.new.value result }
{
    let mut held = renderer.open();
    let done = held.call_table(read);
    hand_back(held, back);
    status(done)
}

#[unsafe(no_mangle)]
pub extern "C" fn tbr1_start_auto_table(renderer: Handle, back: &mut Returned) -> u32
    ensures { GivesTable renderer.value (Ok call.StartTable) back.new.value result }
{
    run(renderer, Ok(TableCall::StartTable), back)
}

#[unsafe(no_mangle)]
pub extern "C" fn tbr1_start_auto_cell(
    renderer: Handle,
    columns: usize,
    rows: usize,
    alignment: u32,
    back: &mut Returned,
) -> u32
    ensures { GivesTable renderer.value (table_cell_asked columns rows alignment) back.new.value result }
{
    run(
        renderer,
        arguments::table_cell(columns, rows, alignment),
        back,
    )
}

#[unsafe(no_mangle)]
pub extern "C" fn tbr1_end_auto_cell(renderer: Handle, back: &mut Returned) -> u32
    ensures { GivesTable renderer.value (Ok call.EndCell) back.new.value result }
{
    run(renderer, Ok(TableCall::EndCell), back)
}

#[unsafe(no_mangle)]
pub extern "C" fn tbr1_end_auto_row(renderer: Handle, back: &mut Returned) -> u32
    ensures { GivesTable renderer.value (Ok call.EndRow) back.new.value result }
{
    run(renderer, Ok(TableCall::EndRow), back)
}

#[unsafe(no_mangle)]
pub extern "C" fn tbr1_end_auto_table(renderer: Handle, back: &mut Returned) -> u32
    ensures { GivesTable renderer.value (Ok call.EndTable) back.new.value result }
{
    run(renderer, Ok(TableCall::EndTable), back)
}

#[unsafe(no_mangle)]
pub extern "C" fn tbr1_start_inside(renderer: Handle, prefix: usize, back: &mut Returned) -> u32
    ensures { GivesTable renderer.value (Ok (call.StartInside prefix)) back.new.value result }
{
    run(renderer, Ok(TableCall::StartInside(prefix)), back)
}
