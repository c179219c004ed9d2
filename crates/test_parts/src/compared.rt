//! What tests compare.
use std::fmt::Debug;
use std::process::Abort;

/// The number is the one that is expected.
pub fn counts(rt: &impl Abort, number: usize, expected: usize) {
    assert_eq!(rt; number, expected);
}

/// The text is the one that is expected.
pub fn shows<E: Debug + Drop>(rt: &impl Abort, text: Result<String, E>, expected: &str) {
    match text {
        Ok(text) => assert_eq!(rt; text.as_str(), expected),
        Err(error) => panic!(rt; "{error:?}"),
    }
}

/// What was asked under that name holds.
pub fn holds<E: Debug + Drop>(rt: &impl Abort, name: &str, answer: Result<bool, E>) {
    match answer {
        Ok(answer) => assert!(rt; answer, "{name}"),
        Err(error) => panic!(rt; "{name}: {error:?}"),
    }
}
