// What the definitions are held to on examples.
ghost use Rattle.tray_file.specs.number.NumberExamples.{NumberExamples};

/// What the definitions of numbers give in examples. The call does nothing: its clause is the
/// examples.
pub fn number_examples()
    ensures { NumberExamples }
{}
