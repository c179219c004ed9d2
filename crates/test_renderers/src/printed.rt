//! Worked examples of renderers and stacks of them that are printed.
use std::alloc::Global;
use std::test::Fail;
use tbr_decor::PlainDecorator;
use tbr_lines::{Error, OutOfMemory, WhiteSpace};
use tbr_renderer::SubRenderer;
use tbr_stack::TextRenderer;
use test_calls::calls::Call::{Border, Line, Marker, Mode, Text};
use test_calls::calls::{Call, make_all};
use test_calls::told::{Told, plain};

/// A plain renderer of four columns after calls.
fn after(alloc: Global, calls: &[Call<'_>]) -> Result<SubRenderer<PlainDecorator>, Error> {
    let mut r = plain(alloc, 4, Told::Nothing);
    make_all(alloc, &mut r, calls)?;
    Ok(r)
}

fn displayed(alloc: Global, calls: &[Call<'_>]) -> Result<String, Error> {
    let r = after(alloc, calls)?;
    Ok(format!(in alloc; "{r}")?)
}

#[test]
fn lines_of_a_renderer_are_displayed(rt: HostRuntime) -> Result<(), Fail> {
    let alloc = rt.alloc();
    let new = displayed(alloc, &[])?;
    assert_eq!(rt; new.as_str(), "4 columns\n");
    let called = displayed(
        alloc,
        &[Marker("x"), Text("ab cd"), Line, Border, Text("e")],
    )?;
    assert_eq!(rt;
        called.as_str(),
        "4 columns\n<ab>\n<cd>\n[────]\nand an open block\n"
    );
    Ok(())
}

#[test]
fn renderers_and_stacks_are_printed_for_debugging(rt: HostRuntime) -> Result<(), Fail> {
    let alloc = rt.alloc();
    let mut r = after(alloc, &[Mode(WhiteSpace::Pre)])?;
    r.fail(OutOfMemory);
    let printed = format!(in alloc; "{r:?}")?;
    assert_eq!(rt;
        printed.as_str(),
        "SubRenderer { width: 4, lines: [], annotations: [], modes: [Pre], failure: Some(OutOfMemory), .. }"
    );
    let mut stack = TextRenderer::new(alloc, r)?;
    stack.table_depth = 2;
    let printed = format!(in alloc; "{stack:?}")?;
    assert_eq!(rt;
        printed.as_str(),
        "Stack { levels: [Level { renderer: SubRenderer { width: 4, lines: [], annotations: [], modes: [Pre], \
failure: Some(OutOfMemory), .. }, open_links: [] }], links: [], table_depth: 2 }"
    );
    Ok(())
}
