//! What tests compare.
use std::fmt::Debug;
use std::process::Abort;

/// The text is the one that is expected.
pub fn shows<E: Debug + Drop>(rt: &impl Abort, text: Result<String, E>, expected: &str) {
    match text {
        Ok(text) => assert_eq!(rt; text.as_str(), expected),
        Err(error) => panic!(rt; "{error:?}"),
    }
}
