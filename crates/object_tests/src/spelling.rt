//! Examples, with ample memory, and laws that can be called.

use stack_text::*;
use std::alloc::Global;

fn is_spelled(alloc: Global, bytes: &[u8], due: &[u8]) -> bool {
    let mut out = Vec::new(alloc);
    spell_into(&mut out, bytes).is_ok() && out.as_slice() == due
}

fn is_read(alloc: Global, bytes: &[u8], due: &[u8]) -> bool {
    matches!(unspell(alloc, bytes), Ok(Some(text)) if text.as_slice() == due)
}

#[test]
fn texts_are_spelled_and_read_again(rt: HostRuntime) {
    assert!(rt; is_spelled(rt.alloc(), b"a\\b\r\xff", b"a\\5cb\\0d\\ff"));
    assert!(rt; is_read(rt.alloc(), b"a\\5cb\\0d\\ff", b"a\\b\r\xff"));
}

#[test]
fn numbers_have_one_form(rt: HostRuntime) {
    let rows: &[(&[u8], Option<u32>)] = &[
        (b"0", Some(0)),
        (b"1000001", Some(1_000_001)),
        (b"", None),
        (b"07", None),
        (b"12345678", None),
        (b"+1", None),
    ];
    for (bytes, number) in rows {
        assert!(rt; number_at(bytes) == *number, "{bytes:?}");
    }
}

#[test]
fn faults_are_numbered_from_one_to_four(rt: HostRuntime) {
    let rows = &[
        (FileError::BadLine(7), 1),
        (FileError::BadId(7), 2),
        (FileError::Truncated, 3),
        (FileError::TooMany, 4),
    ];
    for (error, number) in rows {
        assert!(rt; error.number() == *number, "{number}");
    }
}

#[test]
fn the_laws_hold(_rt: HostRuntime) {
    law::reads_each_text();
    law::one_stack();
    law::written_is_read();
    law::read_is_written();
    law::reads_again();
    law::fault_is_of_its_line();
    law::prefix_is_truncated();
    law::more_is_bad_line();
}
