//! What the definitions of the stack text promise.

ghost use Rattle.stack_text.specs.Laws.{ReadsEachText, OneStack, WrittenIsRead, ReadIsWritten, ReadsAgain};
ghost use Rattle.stack_text.specs.Laws.{FaultIsOfItsLine, PrefixIsTruncated, MoreIsBadLine};

/// Bytes are read as a stack exactly where they are a text of it.
pub fn reads_each_text()
    ensures { ReadsEachText }
{}

/// Bytes are a text of one stack at most.
pub fn one_stack()
    ensures { OneStack }
{}

/// What is written is read.
pub fn written_is_read()
    ensures { WrittenIsRead }
{}

/// What is read of version 2 is written as it was.
pub fn read_is_written()
    ensures { ReadIsWritten }
{}

/// What is read of either version, written and read again, is the same stack.
pub fn reads_again()
    ensures { ReadsAgain }
{}

/// A fault but `Truncated` is that of its line: the lines up to it have it whatever stands behind them, and fewer lines
/// have it not.
pub fn fault_is_of_its_line()
    ensures { FaultIsOfItsLine }
{}

/// Each proper prefix of a text of a stack is truncated.
pub fn prefix_is_truncated()
    ensures { PrefixIsTruncated }
{}

/// A text of a stack and then a byte more have a bad line.
pub fn more_is_bad_line()
    ensures { MoreIsBadLine }
{}
