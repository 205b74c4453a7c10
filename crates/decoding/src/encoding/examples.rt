// What the definitions are held to on examples.
ghost use Rattle.decoding.specs.encoding.CodeExamples.{EncodingExample};

/// What the definition of encoding gives in an example. The call does nothing: its clause is the
/// example.
pub fn code_examples()
    ensures { EncodingExample }
{}
