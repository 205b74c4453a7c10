// Writes the line of a step.
ghost use Rattle.std.specs.Prelude.{◌≡◌, ◌++◌, codes};
ghost use Rattle.codes.specs.WordText.{word_text};
ghost use Rattle.tray_report.specs.FileText.{step_text};
ghost use Rattle.tray_report.specs.Putting.{Puts, fields_text};
ghost use Rattle.tray_report.specs.ReportLines.{layer_word};

use crate::file_lines::Step;
use crate::report::putting::{Field, put, put_fields, put_letters};
use std::io::{self, Write};
use tray_file::Layer;

impl Step {
    /// Writes the line of what is told, and its end; a card or a note has none. An error is one of
    /// a write; the writer then took a beginning of the line.
    pub fn write_line<W: Write>(&self, out: &mut W) -> io::Result<()>
        ensures { Puts (W.contents out.old) (W.contents out.new) (step_text self.now) result }
    {
        match self {
            Step::Silent => Ok(()),
            Step::Read { place, word } => {
                let fields = [
                    Field {
                        label: b"READ ",
                        number: *place,
                    },
                    Field {
                        label: b" ",
                        number: word.counts.wrong,
                    },
                    Field {
                        label: b" ",
                        number: word.counts.blank,
                    },
                ];
                put_line(out, &fields, word.letters.as_slice())
            }
            Step::Lost(line) => {
                let fields = [
                    Field {
                        label: b"LOST ",
                        number: line.place,
                    },
                    Field {
                        label: b" ",
                        number: line.refusal.number() as usize,
                    },
                ];
                put_line(out, &fields, &[])
            }
            Step::End(line) => {
                let fields = [
                    Field {
                        label: b"END ",
                        number: line.read,
                    },
                    Field {
                        label: b" ",
                        number: line.lost,
                    },
                ];
                put_line(out, &fields, &[])
            }
            Step::Fault(line) => {
                let fields = [
                    Field {
                        label: b"FAULT ",
                        number: line.fault.place,
                    },
                    Field {
                        label: layer_name(line.fault.layer),
                        number: line.fault.number() as usize,
                    },
                ];
                put_line(out, &fields, &[])
            }
        }
    }
}

// The layers by name.
fn layer_name(layer: Layer) -> &'static [u8]
    ensures { result.now ≡ layer_word layer }
{
    match layer {
        Layer::Field(_) => b" FIELD ",
        Layer::Card(_) => b" CARD ",
        Layer::Tag(_) => b" TAG ",
        Layer::File(_) => b" FILE ",
    }
}

// Fields, the letters of a word and the line's end.
fn put_line<W: Write>(out: &mut W, fields: &[Field<'_>], letters: &[u32]) -> io::Result<()>
    ensures { Puts (W.contents out.old) (W.contents out.new)
        (fields_text fields.now ++ (word_text letters.now ++ codes "\n")) result }
{
    put_fields(out, fields)?;
    put_letters(out, letters)?;
    put(out, b"\n")
}
