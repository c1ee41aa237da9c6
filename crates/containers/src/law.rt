//! What writes promise together.

ghost use Rattle.containers.specs.Laws.{WritesAreDue, WrittenIsRead};

/// A write has one outcome.
pub fn writes_are_due()
    ensures { WritesAreDue }
{}

/// What is written is what is read there next.
pub fn written_is_read()
    ensures { WrittenIsRead }
{}
