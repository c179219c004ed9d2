//! A report with a table.
ghost use Rattle.std.specs.Prelude.{◌<◌};

use std::alloc::Global;
use text_block_renderer::{
    CellAlign, Error, RenderOptions, Renderer, SubRenderer, TrivialDecorator,
};

/// What a loaf costs, in a row under a border, its price at the right.
pub fn report(alloc: Global) -> Result<String, Error> {
    let options = RenderOptions::default();
    let mut report: SubRenderer<TrivialDecorator> = SubRenderer::new(
        alloc,
        24,
        options,
        TrivialDecorator::new(),
    );
    report.start_table()?;
    report.add_horizontal_border()?;
    add_row(alloc, &mut report)?;
    report.into_string()
}

/// Adds a row of two cells, where it fits, each of one row.
fn add_row(alloc: Global, report: &mut SubRenderer<TrivialDecorator>) -> Result<(), Error> {
    let mut row = Vec::new(alloc);
    row.push((cell(report, 16, "A loaf of bread")?, 1))?;
    row.push((cell(report, 7, "3.20")?, 1))?;
    if !report.row_fits(&row) {
        return Ok(());
    }
    report.append_columns_aligned(row, &[CellAlign::Left, CellAlign::Right], false)
}

/// A cell of this many columns with a text.
fn cell(
    report: &SubRenderer<TrivialDecorator>,
    width: usize,
    text: &str,
) -> Result<SubRenderer<TrivialDecorator>, Error>
    requires { 0 < width }
{
    let mut cell = report.new_sub_renderer(width)?;
    cell.add_inline_text(text)?;
    Ok(cell)
}
