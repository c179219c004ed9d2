//! Worked examples of rows of cells side by side.
use std::alloc::Global;
use std::fmt::Debug;
use std::process::Abort;
use std::test::Fail;
use tbr_lines::{BorderHoriz, CellAlign, OutOfMemory, RenderLine, TaggedLine, UnicodeColumns};
use tbr_rows::{Columns, Overhang, Row, RowStyle};
use test_support::texts::{Voice, append_elements, piece};

/// A cell: its width, the rows that it spans, where its lines are in it, and these. A line of `─` is a border.
#[derive(Clone, Copy)]
struct Cell<'a>(usize, usize, CellAlign, &'a [&'a str]);

/// A cell of one row, with its lines on the left.
fn single<'a>(width: usize, lines: &'a [&'a str]) -> Cell<'a> {
    Cell(width, 1, CellAlign::Left, lines)
}

/// A cell that spans rows, with its lines on the left.
fn spanning<'a>(width: usize, span: usize, lines: &'a [&'a str]) -> Cell<'a> {
    Cell(width, span, CellAlign::Left, lines)
}

/// A cell without lines.
fn blank<'a>(width: usize, span: usize) -> Cell<'a> {
    Cell(width, span, CellAlign::Left, &[])
}

fn aligned<'a>(width: usize, span: usize, align: CellAlign, lines: &'a [&'a str]) -> Cell<'a> {
    Cell(width, span, align, lines)
}

const DRAWN: RowStyle = RowStyle {
    draws_borders: true,
    collapses: false,
};

const COLLAPSING: RowStyle = RowStyle {
    draws_borders: true,
    collapses: true,
};

const UNDRAWN: RowStyle = RowStyle {
    draws_borders: false,
    collapses: false,
};

/// Lines, and the cells that overhang after them.
#[derive(Drop)]
struct Table {
    alloc: Global,
    lines: Vec<RenderLine<Voice>>,
    overhang: Overhang<Voice>,
}

impl Table {
    /// A table under a border of that many columns, or under none.
    fn under(alloc: Global, border: usize) -> Result<Table, OutOfMemory> {
        let mut lines = Vec::new(alloc);
        if border > 0 {
            lines.push(RenderLine::Line(BorderHoriz::new(alloc, border, Voice::First)?))?;
        }
        Ok(Table {
            alloc,
            lines,
            overhang: Overhang::new(alloc),
        })
    }

    /// The last line, if it is a border. It is taken out.
    fn take_border(&mut self) -> Result<Option<BorderHoriz<Voice>>, OutOfMemory> {
        match self.lines.pop() {
            Some(RenderLine::Line(border)) => Ok(Some(border)),
            Some(text) => {
                self.lines.push(text)?;
                Ok(None)
            }
            None => Ok(None),
        }
    }

    /// Appends a row, or nothing where it doesn't fit.
    fn append(&mut self, columns: Columns<Voice>, style: RowStyle) -> Result<bool, OutOfMemory> {
        let hanging = std::mem::replace(&mut self.overhang, Overhang::new(self.alloc));
        if !columns.fits(&hanging) {
            return Ok(false);
        }
        let above = self.take_border()?;
        let row = columns.lay_out::<UnicodeColumns>(
            self.alloc,
            hanging,
            above,
            style,
            &Voice::First,
        )?;
        self.add(row)?;
        Ok(true)
    }

    /// Adds what a row came to.
    fn add(&mut self, row: Row<Voice>) -> Result<(), OutOfMemory> {
        let Row {
            above,
            lines,
            next,
            overhang,
        } = row;
        self.add_border(above)?;
        for line in lines {
            self.lines.push(RenderLine::Text(line))?;
        }
        self.add_border(next)?;
        self.overhang = overhang;
        Ok(())
    }

    fn add_border(&mut self, border: Option<BorderHoriz<Voice>>) -> Result<(), OutOfMemory> {
        if let Some(border) = border {
            self.lines.push(RenderLine::Line(border))?;
        }
        Ok(())
    }

    /// The lines' texts, each with a newline.
    fn text(&self) -> Result<String, OutOfMemory> {
        let mut all = String::new(self.alloc);
        for line in &self.lines {
            all.push_str(line.to_text()?.as_str())?;
            all.push('\n')?;
        }
        Ok(all)
    }
}

/// A line of a cell: a border if it begins with `─`, and otherwise a text.
fn line(alloc: Global, text: &str) -> Result<RenderLine<Voice>, OutOfMemory> {
    if text.starts_with("─") {
        let width = text.chars().count();
        return Ok(RenderLine::Line(BorderHoriz::new(alloc, width, Voice::Second)?));
    }
    let mut line = TaggedLine::new(alloc);
    line.push_str(piece(alloc, text, Voice::Second)?)?;
    Ok(RenderLine::Text(line))
}

fn lines(alloc: Global, texts: &[&str]) -> Result<Vec<RenderLine<Voice>>, OutOfMemory> {
    let mut lines = Vec::new(alloc);
    for text in texts {
        lines.push(line(alloc, *text)?)?;
    }
    Ok(lines)
}

fn columns(alloc: Global, cells: &[Cell<'_>]) -> Result<Columns<Voice>, OutOfMemory> {
    let mut columns = Columns::new(alloc);
    for cell in cells {
        let Cell(width, span, align, texts) = *cell;
        let lines = lines(alloc, texts)?;
        columns.push::<UnicodeColumns>(width, span, align, lines, &Voice::First)?;
    }
    Ok(columns)
}

/// Rows under a border of that many columns, or under none. It ends where a row doesn't fit.
fn shown(
    alloc: Global,
    border: usize,
    style: RowStyle,
    rows: &[&[Cell<'_>]],
) -> Result<String, OutOfMemory> {
    let mut table = Table::under(alloc, border)?;
    for row in rows {
        if !table.append(columns(alloc, row)?, style)? {
            return Ok(String::from_str(alloc, "row does not fit")?);
        }
    }
    table.text()
}

/// The text is the one that is expected.
fn shows<E: Debug + Drop>(rt: &impl Abort, text: Result<String, E>, expected: &str) {
    match text {
        Ok(text) => assert_eq!(rt; text.as_str(), expected),
        Err(error) => panic!(rt; "{error:?}"),
    }
}

/// Such rows show these lines.
fn expect(
    rt: &impl Abort,
    alloc: Global,
    border: usize,
    style: RowStyle,
    rows: &[&[Cell<'_>]],
    expected: &str,
) {
    shows(rt, shown(alloc, border, style, rows), expected)
}

#[test]
fn rows_join_the_borders_above_and_below(rt: HostRuntime) {
    let alloc = rt.alloc();
    expect(
        &rt,
        alloc,
        5,
        DRAWN,
        &[
            &[single(1, &["1"]), single(1, &["2"]), single(1, &["3"])],
            &[single(3, &["12"]), single(1, &["3"])],
            &[single(1, &["1"]), single(3, &["23"])],
        ],
        "─┬─┬─\n1│2│3\n─┴─┼─\n12 │3\n─┬─┴─\n1│23 \n─┴───\n",
    );
}

#[test]
fn spanning_cells_stand_in_the_borders_between_their_rows(rt: HostRuntime) {
    let alloc = rt.alloc();
    expect(
        &rt,
        alloc,
        5,
        DRAWN,
        &[
            &[spanning(1, 2, &["A", "B", "C"]), single(3, &["one"])],
            &[blank(1, 1), single(3, &["two"])],
        ],
        "─┬───\nA│one\nB├───\nC│two\n─┴───\n",
    );
    expect(
        &rt,
        alloc,
        0,
        UNDRAWN,
        &[
            &[spanning(1, 2, &["A", "B", "C"]), single(3, &["one"])],
            &[blank(1, 1), single(3, &["two"])],
        ],
        "A one\nB two\nC    \n",
    );
    expect(
        &rt,
        alloc,
        3,
        DRAWN,
        &[
            &[
                spanning(1, 3, &["A", "B", "C", "D", "E"]),
                single(1, &["x"]),
            ],
            &[blank(1, 1), single(1, &["y"])],
            &[blank(1, 1), single(1, &["z"])],
        ],
        "─┬─\nA│x\nB├─\nC│y\nD├─\nE│z\n─┴─\n",
    );
    // Two fillers in one border: the second comes after the first line, which is wider than its cell.
    expect(
        &rt,
        alloc,
        8,
        DRAWN,
        &[&[spanning(1, 2, &["────"]), blank(2, 2)]],
        "─┬──────\n────  \n",
    );
}

#[test]
fn overhanging_cells_take_their_places(rt: HostRuntime) {
    let alloc = rt.alloc();
    expect(
        &rt,
        alloc,
        0,
        UNDRAWN,
        &[
            &[single(2, &["a"]), spanning(1, 2, &["B", "C", "D"])],
            &[single(1, &["e"])],
        ],
        "a  B\ne  C\n   D\n",
    );
    expect(
        &rt,
        alloc,
        0,
        UNDRAWN,
        &[
            &[single(1, &["a"]), spanning(1, 2, &["B", "C", "D"])],
            &[single(1, &["e"])],
        ],
        "a B\ne C\n  D\n",
    );
    // A row without columns takes the overhanging cell.
    expect(
        &rt,
        alloc,
        0,
        UNDRAWN,
        &[&[spanning(1, 2, &["A", "B"])], &[]],
        "A\nB\n",
    );
}

/// A row of one cell doesn't fit under a cell of width 1 that spans two rows.
fn is_refused(rt: &impl Abort, alloc: Global, taken: Cell<'_>) {
    expect(
        rt,
        alloc,
        0,
        UNDRAWN,
        &[&[spanning(1, 2, &["A", "B"])], &[taken]],
        "row does not fit",
    );
}

#[test]
fn rows_that_do_not_fit_are_told(rt: HostRuntime) {
    let alloc = rt.alloc();
    is_refused(&rt, alloc, single(2, &["x"]));
    is_refused(&rt, alloc, blank(2, 1));
    is_refused(&rt, alloc, single(1, &["x"]));
}

/// What overhangs of a row of one cell of three lines, which spans two rows.
fn overhanging(alloc: Global) -> Result<String, OutOfMemory> {
    let mut table = Table::under(alloc, 0)?;
    let cells = columns(alloc, &[spanning(1, 2, &["A", "B", "C"])])?;
    let _ = table.append(cells, DRAWN)?;
    Ok(format!(in alloc; "{}", table.overhang)?)
}

#[test]
fn overhanging_cells_are_displayed(rt: HostRuntime) {
    shows(&rt, overhanging(rt.alloc()), "0+1 over 1: <C>\n");
}

/// The elements of each line after a row of one cell.
fn tagged(alloc: Global, cell: Cell<'_>, style: RowStyle) -> Result<String, OutOfMemory> {
    let mut table = Table::under(alloc, 0)?;
    let _ = table.append(columns(alloc, &[cell])?, style)?;
    let Table { lines, .. } = table;
    let mut all = String::new(alloc);
    for line in lines {
        append_elements(&mut all, &line.into_tagged_line()?)?;
        all.push('\n')?;
    }
    Ok(all)
}

#[test]
fn a_border_stands_under_the_tag_of_its_row_or_its_own(rt: HostRuntime) {
    let alloc = rt.alloc();
    let border_between = single(2, &["a", "──", "b"]);
    shows(
        &rt,
        tagged(alloc, border_between, UNDRAWN),
        "2a|1 \n1──\n2b|1 \n",
    );
    // In the border below it keeps its own.
    shows(&rt, tagged(alloc, spanning(2, 2, &["──"]), DRAWN), "2──\n");
}

/// A collapsing row of a table within a table, and of a cell of two lines.
fn nested(alloc: Global) -> Result<String, OutOfMemory> {
    let mut inner = Table::under(alloc, 3)?;
    let cells = columns(alloc, &[single(1, &["1"]), single(1, &["2"])])?;
    let _ = inner.append(cells, DRAWN)?;
    let mut row = Columns::new(alloc);
    row.push::<UnicodeColumns>(3, 1, CellAlign::Left, inner.lines, &Voice::First)?;
    let beside = lines(alloc, &["x", "y"])?;
    row.push::<UnicodeColumns>(1, 1, CellAlign::Left, beside, &Voice::First)?;
    let mut outer = Table::under(alloc, 5)?;
    let _ = outer.append(row, COLLAPSING)?;
    outer.text()
}

#[test]
fn collapsing_rows_merge_borders_of_their_cells(rt: HostRuntime) {
    let alloc = rt.alloc();
    shows(&rt, nested(alloc), "─┬─┬─\n1│2│x\n │ │y\n─┴─┴─\n");
    // What overhangs begins with a border: it is merged too.
    expect(
        &rt,
        alloc,
        3,
        COLLAPSING,
        &[
            &[spanning(3, 2, &["x", "z", "g", "───", "y"])],
            &[blank(3, 1)],
        ],
        "───\nx  \nz  \ng  \ny  \n───\n",
    );
    // Under no border the first one stays; alone, it is the cell's last one too.
    expect(
        &rt,
        alloc,
        0,
        COLLAPSING,
        &[&[single(3, &["───", "a"])]],
        "───\na  \n───\n",
    );
    expect(
        &rt,
        alloc,
        0,
        COLLAPSING,
        &[&[single(3, &["───"])]],
        "───\n",
    );
}

#[test]
fn cells_are_aligned(rt: HostRuntime) {
    let alloc = rt.alloc();
    expect(
        &rt,
        alloc,
        0,
        UNDRAWN,
        &[&[
            aligned(3, 1, CellAlign::Right, &["a"]),
            aligned(5, 1, CellAlign::Centre, &["bc"]),
        ]],
        "  a  bc  \n",
    );
    expect(
        &rt,
        alloc,
        0,
        UNDRAWN,
        &[&[aligned(5, 1, CellAlign::Centre, &["漢"])]],
        " 漢  \n",
    );
    expect(
        &rt,
        alloc,
        5,
        DRAWN,
        &[
            &[
                aligned(2, 2, CellAlign::Right, &["A", "B", "C"]),
                single(2, &["x"]),
            ],
            &[blank(2, 1), single(2, &["y"])],
        ],
        "──┬──\n A│x \n B├──\n C│y \n──┴──\n",
    );
}

/// This many lines of one letter.
fn letters(alloc: Global, count: usize) -> Result<Vec<RenderLine<Voice>>, OutOfMemory> {
    let mut letters = Vec::new(alloc);
    for _ in 0..count {
        letters.push(line(alloc, "a")?)?;
    }
    Ok(letters)
}

/// The text of a row of this many cells, each of one letter.
fn wide(alloc: Global, count: usize) -> Result<usize, OutOfMemory> {
    let mut row = Columns::new(alloc);
    for _ in 0..count {
        row.push::<UnicodeColumns>(1, 1, CellAlign::Left, letters(alloc, 1)?, &Voice::First)?;
    }
    let mut table = Table::under(alloc, 0)?;
    let _ = table.append(row, UNDRAWN)?;
    Ok(table.text()?.len())
}

/// The text of a cell of one letter a row, which spans this many rows.
fn long(alloc: Global, count: usize) -> Result<usize, OutOfMemory> {
    let mut row = Columns::new(alloc);
    let lines = letters(alloc, count)?;
    row.push::<UnicodeColumns>(1, count, CellAlign::Left, lines, &Voice::First)?;
    let mut table = Table::under(alloc, 0)?;
    let _ = table.append(row, UNDRAWN)?;
    for _ in 1..count {
        let _ = table.append(Columns::new(alloc), UNDRAWN)?;
    }
    Ok(table.text()?.len())
}

#[test]
fn a_thousand_cells_and_a_thousand_rows(rt: HostRuntime) -> Result<(), Fail> {
    let alloc = rt.alloc();
    assert_eq!(rt; wide(alloc, 1000)?, 2000);
    assert_eq!(rt; long(alloc, 1000)?, 2000);
    Ok(())
}
