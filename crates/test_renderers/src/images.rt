//! Worked examples of images.
use crate::expected::compare;
use std::alloc::Global;
use tbr_lines::Error;
use tbr_renderer::ImageRenderMode;
use tbr_renderer::ImageRenderMode::{Filename, IgnoreEmpty, Replace, ShowAlways};
use test_calls::calls::Call::{Image, Text};
use test_calls::calls::{Call, Shown, handed_out};
use test_calls::told::{Told, Under, plain};

const SOURCE: &str = "http://www.example.com/path/foo.jpg";

/// An image without a title, between texts.
const UNTITLED: &[Call<'static>] = &[Text("Hello x"), Image(SOURCE, ""), Text("y")];

const TITLED: &[Call<'static>] = &[Text("Hello x"), Image(SOURCE, "t"), Text("y")];

/// An image without a title.
const ALONE: &[Call<'static>] = &[Image("s", "")];

/// A name, the mode for images without a title, calls, and the lines that they leave.
const EXAMPLES: &[(&str, ImageRenderMode, &[Call<'static>], &str)] = &[
    (
        "an image without a title is ignored",
        IgnoreEmpty,
        UNTITLED,
        "Hello xy\n",
    ),
    (
        "an image without a title shows none",
        ShowAlways,
        UNTITLED,
        "Hello x[]y\n",
    ),
    (
        "an image without a title shows another",
        Replace("image"),
        UNTITLED,
        "Hello x[image]y\n",
    ),
    (
        "an image without a title shows its file",
        Filename,
        UNTITLED,
        "Hello x[foo.jpg]y\n",
    ),
    (
        "a title is shown where none is ignored",
        IgnoreEmpty,
        TITLED,
        "Hello x[t]y\n",
    ),
    (
        "a title is shown where none is shown",
        ShowAlways,
        TITLED,
        "Hello x[t]y\n",
    ),
    (
        "a title is shown where none is replaced",
        Replace("image"),
        TITLED,
        "Hello x[t]y\n",
    ),
    (
        "a title is shown where none is a file",
        Filename,
        TITLED,
        "Hello x[t]y\n",
    ),
    (
        "the name of a file is a source without a slash",
        Filename,
        &[Text("Hello x"), Image("foo.jpg", ""), Text("y")],
        "Hello x[foo.jpg]y\n",
    ),
    (
        "the name of a file is empty after the last slash",
        Filename,
        &[Text("Hello x"), Image("a/b/", ""), Text("y")],
        "Hello x[]y\n",
    ),
    (
        "the name of a file follows the last slash",
        Filename,
        &[Text("Hello x"), Image("/b", ""), Text("y")],
        "Hello x[b]y\n",
    ),
    (
        "an image that is ignored is no line",
        IgnoreEmpty,
        ALONE,
        "",
    ),
    (
        "an image that shows no title is a line",
        ShowAlways,
        ALONE,
        "[]\n",
    ),
    (
        "an image that shows another title is a line",
        Replace("image"),
        ALONE,
        "[image]\n",
    ),
    (
        "an image that shows its file is a line",
        Filename,
        ALONE,
        "[s]\n",
    ),
];

/// The lines after calls, where images are shown by a mode.
fn lines(alloc: Global, mode: ImageRenderMode, calls: &[Call<'_>]) -> Result<String, Error> {
    let r = plain(alloc, 80, Told::Images(mode));
    handed_out(alloc, Shown::Text, r, calls)
}

#[test]
fn an_image_is_shown_by_its_title_or_the_mode(rt: HostRuntime) {
    let alloc = rt.alloc();
    for (name, mode, calls, shown) in EXAMPLES {
        compare(&rt, name, Under::Plain, lines(alloc, *mode, calls), shown);
    }
}
