//! Decorators: the texts round parts of a document, and the annotations of what is between.
#![tactic(auto)]

pub use annotation::RichAnnotation;
pub use colour::Colour;
pub use decorator::TextDecorator;
pub use plain::PlainDecorator;
pub use prefix::DecoratorPrefix;
pub use rich::RichDecorator;
pub use trivial::TrivialDecorator;

mod annotation;
mod colour;
mod decorator;
mod plain;
mod prefix;
mod rich;
pub mod text;
mod trivial;
pub mod usual;
