//! The names of faults and refusals, and what they say.

use diagnostics::Page;
use ht_values::Fault;
use session::Refusal;

/// A name, and when it comes.
#[derive(Clone, Copy)]
struct Words {
    name: &'static str,
    when: &'static str,
}

// The one table of faults: the language's page is made of it.

/// The words of a fault.
fn words_of_fault(fault: Fault) -> Words {
    match fault {
        Fault::Syntax => Words {
            name: "Syntax",
            when: "a text that is run isn't in the grammar: that of `do`, `value` or `send`, one that an external asks for, or a script that a message meets on its way",
        },
        Fault::CantUnderstand => Words {
            name: "CantUnderstand",
            when: "nobody handles a command or a function of that name",
        },
        Fault::NoSuchObject => Words {
            name: "NoSuchObject",
            when: "there is no such card, background, button or field; or the text or the hilite of a background's part is asked of a card of another background, which has none for it",
        },
        Fault::NotANumber => Words {
            name: "NotANumber",
            when: "a number is needed, and the text isn't one",
        },
        Fault::OutOfRange => Words {
            name: "OutOfRange",
            when: "a number is below -9223372036854775808 or above 9223372036854775807",
        },
        Fault::DivideByZero => Words {
            name: "DivideByZero",
            when: "`/`, `div` or `mod` divides by 0",
        },
        Fault::NotExact => Words {
            name: "NotExact",
            when: "`/` would leave a remainder",
        },
        Fault::TooLong => Words {
            name: "TooLong",
            when: "a text would have more than 30,000 bytes",
        },
        Fault::NotLogical => Words {
            name: "NotLogical",
            when: "`true` or `false` is needed, and the text is neither",
        },
        Fault::NoSuchProperty => Words {
            name: "NoSuchProperty",
            when: "the object doesn't have the property, or it can't be set",
        },
        Fault::StepLimit => Words {
            name: "StepLimit",
            when: "the command has no step left",
        },
        Fault::TooDeep => Words {
            name: "TooDeep",
            when: "more than 100 calls are nested",
        },
        Fault::ExternalFault => Words {
            name: "ExternalFault",
            when: "an external fails",
        },
        Fault::CantDelete => Words {
            name: "CantDelete",
            when: "a card is to be deleted that is the only one, or has `cantDelete`, or is the last of a background that has it",
        },
        Fault::TooMany => Words {
            name: "TooMany",
            when: "more than 10,000 objects would live, or an id would pass 1,000,000",
        },
        Fault::BadArgument => Words {
            name: "BadArgument",
            when: "a value isn't one that is taken there: an index below 1 in a `put`, an exponent below 0, an unknown menu item, a wrong number of arguments, an item delimiter that isn't one byte",
        },
    }
}

/// The words of a refusal.
fn words_of_refusal(refusal: Refusal) -> Words {
    match refusal {
        Refusal::NothingToUndo => Words {
            name: "NothingToUndo",
            when: "fewer commands can be undone, or there is no way back to that line",
        },
        Refusal::NothingToRedo => Words {
            name: "NothingToRedo",
            when: "fewer commands can be redone",
        },
        Refusal::BadCommand => Words {
            name: "BadCommand",
            when: "the line isn't in the grammar, or no external has that name",
        },
        Refusal::NoMemory => Words {
            name: "NoMemory",
            when: "memory was refused",
        },
        Refusal::LineTooLong => Words {
            name: "LineTooLong",
            when: "the line is over 30,000 bytes",
        },
        Refusal::FieldLocked => Words {
            name: "FieldLocked",
            when: "the field's text is locked",
        },
        Refusal::SaveFailed => Words {
            name: "SaveFailed",
            when: "the file couldn't be written",
        },
    }
}

fn write_words(page: &mut Page, words: Words) {
    page.word(words.name.as_bytes());
    page.word(b": ");
    page.word(words.when.as_bytes());
}

/// `fault N, NAME: WORDS`
pub(crate) fn write_fault(page: &mut Page, fault: Fault) {
    page.word(b"fault ");
    page.number(fault.number() as usize);
    page.word(b", ");
    write_words(page, words_of_fault(fault));
}

/// `refused N, NAME: WORDS`
pub(crate) fn write_refusal(page: &mut Page, refusal: Refusal) {
    page.word(b"refused ");
    page.number(refusal.number() as usize);
    page.word(b", ");
    write_words(page, words_of_refusal(refusal));
}
