//! Every call of each shipped decorator, once.
use std::alloc::Global;
use std::process::Abort;
use std::test::Fail;
use tbr_decor::{
    Colour, PlainDecorator, RichAnnotation, RichDecorator, TextDecorator, TrivialDecorator,
};
use tbr_lines::OutOfMemory;

const RED: Colour = Colour { r: 255, g: 0, b: 0 };

/// What a decorator has answered: its texts with a bar after each, its annotations, and whether a colour's end took one
/// away.
#[derive(Drop)]
struct Answers<A> {
    texts: String,
    annotations: Vec<A>,
    taken: Vec<bool>,
}

impl<A: Drop> Answers<A> {
    fn new(alloc: Global) -> Answers<A> {
        Answers {
            texts: String::new(alloc),
            annotations: Vec::new(alloc),
            taken: Vec::new(alloc),
        }
    }

    fn text(&mut self, text: Result<String, OutOfMemory>) -> Result<(), OutOfMemory> {
        self.texts.push_str(text?.as_str())?;
        self.texts.push('|')?;
        Ok(())
    }

    fn annotation(&mut self, annotation: Result<A, OutOfMemory>) -> Result<(), OutOfMemory> {
        self.annotations.push(annotation?)?;
        Ok(())
    }

    fn both(&mut self, answer: Result<(String, A), OutOfMemory>) -> Result<(), OutOfMemory> {
        let (text, annotation) = answer?;
        self.text(Ok(text))?;
        self.annotation(Ok(annotation))
    }

    fn colour(&mut self, annotation: Result<Option<A>, OutOfMemory>) -> Result<(), OutOfMemory> {
        match annotation? {
            Some(annotation) => self.annotation(Ok(annotation)),
            None => Ok(()),
        }
    }

    fn taken(&mut self, taken: bool) -> Result<(), OutOfMemory> {
        self.taken.push(taken)?;
        Ok(())
    }
}

fn links<D: TextDecorator>(
    alloc: Global,
    decorator: &mut D,
    answers: &mut Answers<D::Annotation>,
) -> Result<(), OutOfMemory> {
    answers.both(decorator.decorate_link_start(alloc, "target"))?;
    answers.text(decorator.decorate_link_end(alloc))
}

fn stress<D: TextDecorator>(
    alloc: Global,
    decorator: &D,
    answers: &mut Answers<D::Annotation>,
) -> Result<(), OutOfMemory> {
    answers.both(decorator.decorate_em_start(alloc))?;
    answers.text(decorator.decorate_em_end(alloc))?;
    answers.both(decorator.decorate_strong_start(alloc))?;
    answers.text(decorator.decorate_strong_end(alloc))
}

fn marks<D: TextDecorator>(
    alloc: Global,
    decorator: &D,
    answers: &mut Answers<D::Annotation>,
) -> Result<(), OutOfMemory> {
    answers.both(decorator.decorate_strikeout_start(alloc))?;
    answers.text(decorator.decorate_strikeout_end(alloc))?;
    answers.both(decorator.decorate_code_start(alloc))?;
    answers.text(decorator.decorate_code_end(alloc))?;
    answers.both(decorator.decorate_superscript_start(alloc))?;
    answers.text(decorator.decorate_superscript_end(alloc))
}

fn blocks<D: TextDecorator>(
    alloc: Global,
    decorator: &mut D,
    answers: &mut Answers<D::Annotation>,
) -> Result<(), OutOfMemory> {
    answers.annotation(decorator.decorate_preformat_first(alloc))?;
    answers.annotation(decorator.decorate_preformat_cont(alloc))?;
    answers.both(decorator.decorate_image(alloc, "source", "title"))
}

fn prefixes<D: TextDecorator>(
    alloc: Global,
    decorator: &D,
    answers: &mut Answers<D::Annotation>,
) -> Result<(), OutOfMemory> {
    answers.text(decorator.header_prefix(alloc, 2))?;
    answers.text(decorator.quote_prefix(alloc))?;
    answers.text(decorator.unordered_item_prefix(alloc))?;
    answers.text(decorator.ordered_item_prefix(alloc, 7))?;
    let inner = decorator.make_subblock_decorator(alloc)?;
    answers.text(inner.quote_prefix(alloc))
}

fn colours<D: TextDecorator>(
    alloc: Global,
    decorator: &mut D,
    answers: &mut Answers<D::Annotation>,
) -> Result<(), OutOfMemory> {
    answers.colour(decorator.push_colour(alloc, RED))?;
    answers.taken(decorator.pop_colour())?;
    answers.colour(decorator.push_bgcolour(alloc, RED))?;
    answers.taken(decorator.pop_bgcolour())
}

fn footnotes<D: TextDecorator>(
    alloc: Global,
    decorator: &mut D,
    answers: &mut Answers<D::Annotation>,
) -> Result<(), OutOfMemory> {
    let target = String::from_str(alloc, "target")?;
    let targets = vec![in alloc; target]?;
    for line in decorator.finalise(alloc, targets)? {
        answers.text(line.to_text())?;
    }
    Ok(())
}

fn every_call<D: TextDecorator>(
    alloc: Global,
    mut decorator: D,
) -> Result<Answers<D::Annotation>, OutOfMemory> {
    let mut answers = Answers::new(alloc);
    links(alloc, &mut decorator, &mut answers)?;
    stress(alloc, &decorator, &mut answers)?;
    marks(alloc, &decorator, &mut answers)?;
    blocks(alloc, &mut decorator, &mut answers)?;
    prefixes(alloc, &decorator, &mut answers)?;
    colours(alloc, &mut decorator, &mut answers)?;
    footnotes(alloc, &mut decorator, &mut answers)?;
    Ok(answers)
}

/// The texts are those that are expected, and each colour's end took an annotation away, or none did.
fn answers_are<A>(rt: &impl Abort, answers: &Answers<A>, texts: &str, taken: bool) {
    assert_eq!(rt; answers.texts.as_str(), texts);
    assert_eq!(rt; answers.taken.as_slice(), [taken, taken].as_slice());
}

fn rich_annotations(alloc: Global) -> Result<Vec<RichAnnotation>, OutOfMemory> {
    let target = String::from_str(alloc, "target")?;
    let source = String::from_str(alloc, "source")?;
    Ok(vec![in alloc;
        RichAnnotation::Link(target),
        RichAnnotation::Emphasis,
        RichAnnotation::Strong,
        RichAnnotation::Strikeout,
        RichAnnotation::Code,
        RichAnnotation::Default,
        RichAnnotation::Preformat(false),
        RichAnnotation::Preformat(true),
        RichAnnotation::Image(source),
        RichAnnotation::Colour(RED),
        RichAnnotation::BgColour(RED),
    ]?)
}

fn plain_answers(rt: &impl Abort, alloc: Global) -> Result<(), Fail> {
    let plain = every_call(alloc, PlainDecorator::new())?;
    let texts = "[|]|||||||||^{|}|[title]|## |> |* |7. |> |[1]: target|";
    answers_are(rt, &plain, texts, false);
    assert_eq!(rt; plain.annotations.len(), 9);
    Ok(())
}

fn trivial_answers(rt: &impl Abort, alloc: Global) -> Result<(), Fail> {
    let trivial = every_call(alloc, TrivialDecorator::new())?;
    let texts = "||||||||||^{|}|title||||||[1]: target|";
    answers_are(rt, &trivial, texts, false);
    assert_eq!(rt; trivial.annotations.len(), 9);
    Ok(())
}

fn rich_answers(rt: &impl Abort, alloc: Global) -> Result<(), Fail> {
    let rich = every_call(alloc, RichDecorator::new())?;
    let texts = "||||||||||^{|}|title|## |> |* |7. |> |[1]: target|";
    answers_are(rt, &rich, texts, true);
    assert!(rt; rich.annotations == rich_annotations(alloc)?);
    Ok(())
}

#[test]
fn every_call_of_each_shipped_decorator_answers(rt: HostRuntime) -> Result<(), Fail> {
    let alloc = rt.alloc();
    plain_answers(&rt, alloc)?;
    trivial_answers(&rt, alloc)?;
    rich_answers(&rt, alloc)
}
