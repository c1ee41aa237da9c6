//! The words of the program, as this project's profile has them.

use command_line::{CliFault, options_of};
use std::alloc::Global;

/// The program's name, and these words.
fn words_of(alloc: Global, words: &str) -> Option<Vec<String>> {
    let mut given = Vec::new(alloc);
    given.push(String::from_str(alloc, "card_cli").ok()?).ok()?;
    for word in words.split_whitespace() {
        given.push(String::from_str(alloc, word).ok()?).ok()?;
    }
    Some(given)
}

/// The steps and the depth that words of the stack `a.stack` give, and whether it is watched.
type Given = (u32, u32, bool);

/// Words, and what they give; where they give nothing they are a usage fault.
const ROWS: &[(&str, Option<Given>)] = &[
    ("a.stack", Some((100_000, 1_000_000, false))),
    (
        "--depth=2 --watch a.stack --steps 10000000",
        Some((10_000_000, 2, true)),
    ),
    ("", None),
    ("--help", None),
    ("a b", None),
    ("a --steps 0", None),
    ("a --steps 10000001", None),
    ("a --depth 0", None),
    ("a --depth 1000001", None),
    ("a --depth x", None),
    ("a --watch --watch", None),
];

fn gives(alloc: Global, words: &[String], wanted: Option<Given>) -> bool {
    match options_of(alloc, words) {
        Ok(options) => {
            wanted == Some((options.steps, options.depth, options.watch))
                && options.stack.as_str() == "a.stack"
        }
        Err(CliFault::Usage(_)) => wanted.is_none(),
        Err(_) => false,
    }
}

#[test]
fn words_give_options_or_a_usage_fault(rt: HostRuntime) {
    for (words, wanted) in ROWS {
        let given = words_of(rt.alloc(), words).expect(&rt, "there is memory");
        assert!(rt; gives(rt.alloc(), &given, *wanted), "{words}");
    }
}
