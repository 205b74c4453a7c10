// The cases and their answers.
ghost use Rattle.std.specs.Prelude.{◌≡◌, ◌≤◌, length, IfOk, string_bytes};
ghost use Rattle.vectors.specs.Answers.{RefusedText, taken_text, ArithmeticText, inverses_text, products_text, SumsAnswered, RealiseAnswered, CardAnswered, AdmitsText, EncodeAnswered};
ghost use Rattle.vectors.specs.CaseAnswers.{FieldCaseAnswered, KindAnswered, FieldAnswered, RefusalAnswered, Answered};
ghost use Rattle.vectors.specs.LineAnswers.{LineRefusedText, LineAnswered};
ghost use Rattle.codes.specs.Cards.{card_arithmetic, card_code};
ghost use Rattle.tags.specs.runs.Rooms.{used};
ghost use Rattle.vectors.specs.ReadAnswers.{notes_and_read, LastReadText, PlayedText, ReadAnswered};
ghost use Rattle.vectors.specs.Parts.{numbers_in, cells_in};

use crate::code_case::CodeCase;
use crate::fold::folded_products;
use crate::inverse::Inverse;
use crate::number_lists::{read_cells, read_numbers, up_to_degree};
use crate::parts::cut;
use crate::refusals::refusal;
use algebra::COEFFICIENTS;
use anyhow::bail;
use codes::{Card, Cell, CellRow, CodeOver, Word};
use decoding::encode;
use fields::{BinaryField, Field, FieldKind, LetteredField, PrimeField};
use minimal_pairs::realise;
use std::alloc::Global;
use tags::{Call, Event, LineRefusal, UNPLAYED, play_script, read_line};
use tray_file::FieldFault;

// A case of a field, which stays beside it since some calls are lent it and some are given it: what
// is asked, the numbers after the field's, and what stands after the first ';'.
#[derive(Clone, Copy)]
struct Case<'a> {
    heap: Global,
    word: &'a str,
    numbers: &'a [u32],
    rest: &'a str,
}

// A case is a word and its argument. All but a line and a refusal begin with a field: its kind, and
// what it is made from.
pub fn answer(heap: Global, line: &str) -> anyhow::Result<String>
    ensures { IfOk result (λ text. Answered line.now (string_bytes text)) }
{
    let Some((word, argument)) = line.split_once(' ') else {
        bail!("a case has a word and its argument")
    };
    match word {
        "line" => line_case(heap, argument),
        "refusal" => refusal_case(heap, argument),
        _ => case_of_field(heap, word, argument),
    }
}

fn refusal_case(heap: Global, argument: &str) -> anyhow::Result<String>
    ensures { IfOk result (λ text. RefusalAnswered argument.now (string_bytes text)) }
{
    let numbers = read_numbers(heap, argument)?;
    let [number] = numbers.as_slice() else {
        bail!("a refusal has a number")
    };
    refusal(heap, *number)
}

// kind origin ..;..: a case of the field of this kind, made from this number.
fn case_of_field(heap: Global, word: &str, argument: &str) -> anyhow::Result<String>
    ensures { IfOk result (λ text. FieldAnswered word.now argument.now (string_bytes text)) }
{
    let (head, rest) = cut(argument);
    let numbers = read_numbers(heap, head)?;
    let [kind, origin, numbers @ ..] = numbers.as_slice() else {
        bail!("a field has a kind and an origin")
    };
    let case = Case {
        heap,
        word,
        numbers,
        rest,
    };
    case_of_kind(case, *kind, *origin)
}

fn case_of_kind(case: Case<'_>, kind: u32, origin: u32) -> anyhow::Result<String>
    ensures { IfOk result (λ text. KindAnswered kind origin case.entry.word.now
        case.entry.numbers.now case.entry.rest.now (string_bytes text)) }
{
    let heap = case.heap;
    match FieldKind::try_from(kind) {
        Ok(FieldKind::Prime) => match PrimeField::new(origin) {
            Ok(field) => field_case(case, field),
            Err(cause) => refused(heap, cause.number(), cause),
        },
        Ok(FieldKind::Binary) => match BinaryField::new(origin) {
            Ok(field) => field_case(case, field),
            Err(cause) => refused(heap, cause.number(), cause),
        },
        Err(_) => refused(
            heap,
            FieldFault::NoSuchField.number(),
            FieldFault::NoSuchField,
        ),
    }
}

// The number comes beside the refusal: each kind of refusal has a `number` of its own.
pub fn refused(
    heap: Global,
    number: u32,
    cause: impl std::fmt::Display + Drop,
) -> anyhow::Result<String>
    ensures { IfOk result (λ text. RefusedText number (string_bytes text)) }
{
    let word = cause.to_string(heap)?;
    Ok(format!(in heap; "refused {number} {word}")?)
}

fn field_case<F: LetteredField + Drop>(case: Case<'_>, field: F) -> anyhow::Result<String>
    requires { F.Field.accepted field }
    ensures { IfOk result (λ text. FieldCaseAnswered (F.Field.meaning field) case.entry.word.now
        case.entry.numbers.now case.entry.rest.now (string_bytes text)) }
{
    // One word, one call: a table of closures would be no plainer.
    match case.word {
        "field" => taken(case, &field),
        "arithmetic" => arithmetic(case, &field),
        "inverses" => inverses(case, &field),
        "products" => products(case, &field),
        "admits" => admits(case, &field),
        "sums" => sums_case(case, field),
        "realise" => realise_case(case, &field),
        "card" => card_case(case, field),
        "encode" => encode_case(case, field),
        "read" => read_case(case, field),
        _ => bail!("there is no such case"),
    }
}

fn taken<F: LetteredField>(case: Case<'_>, field: &F) -> anyhow::Result<String>
    ensures { IfOk result
        (λ text. string_bytes text ≡ taken_text (F.Field.meaning field.now).arithmetic) }
{
    let size = field.size();
    Ok(format!(in case.heap; "taken, {size} elements")?)
}

// a b: the sum, the difference and the product.
fn arithmetic<F: LetteredField>(case: Case<'_>, field: &F) -> anyhow::Result<String>
    ensures { IfOk result (λ text. ArithmeticText (F.Field.meaning field.now).arithmetic
        case.entry.numbers.now (string_bytes text)) }
{
    let [a, b] = case.numbers else {
        bail!("arithmetic takes two numbers")
    };
    let sum = field.add(*a, *b);
    let difference = field.sub(*a, *b);
    let product = field.mul(*a, *b);
    Ok(format!(in case.heap; "{sum} {difference} {product}")?)
}

// The inverses of 0 to q, '-' where there is none.
fn inverses<F: LetteredField>(case: Case<'_>, field: &F) -> anyhow::Result<String>
    ensures { IfOk result (λ text. string_bytes text ≡ inverses_text (F.Field.meaning field.now)) }
{
    let mut out = format!(in case.heap; "inverses")?;
    for a in 0..=field.size() {
        let inverse = Inverse {
            value: field.invert(a),
        };
        write!(out, "{inverse}")?;
    }
    Ok(out)
}

// For each element a one number, made of its products with every element.
fn products<F: LetteredField>(case: Case<'_>, field: &F) -> anyhow::Result<String>
    ensures { IfOk result
        (λ text. string_bytes text ≡ products_text (F.Field.meaning field.now).arithmetic) }
{
    let mut out = format!(in case.heap; "products")?;
    for a in 0..field.size() {
        let folded = folded_products(field, a);
        write!(out, " {folded}")?;
    }
    Ok(out)
}

// The alphabet sizes from 0 to q that are admitted; no larger one is.
fn admits<F: LetteredField>(case: Case<'_>, field: &F) -> anyhow::Result<String>
    ensures { IfOk result
        (λ text. AdmitsText (F.Field.meaning field.now).arithmetic (string_bytes text)) }
{
    let mut out = format!(in case.heap; "admits")?;
    for letters in 0..=field.size() {
        if field.admits(letters) {
            write!(out, " {letters}")?;
        }
    }
    Ok(out)
}

// r; locators; multipliers; cells: the r sums.
fn sums_case<F: LetteredField + Drop>(case: Case<'_>, field: F) -> anyhow::Result<String>
    ensures { IfOk result (λ text. SumsAnswered (F.Field.meaning field).arithmetic
        case.entry.numbers.now case.entry.rest.now (string_bytes text)) }
{
    let heap = case.heap;
    let [rows] = case.numbers else {
        bail!("sums begin with the rows")
    };
    let code = CodeCase::read(heap, field.size(), *rows, case.rest)?;
    let cells = read_cells(heap, code.last)?;
    let mut buffer = vec![in heap; 0; *rows as usize]?;
    let over = CodeOver {
        field: &field,
        code: code.code(),
    };
    match over.sums(cells.as_slice(), buffer.as_mut_slice()) {
        Ok(()) => {
            let sums = Word {
                letters: buffer.as_slice(),
            };
            Ok(format!(in heap; "sums{sums}")?)
        }
        Err(refusal) => refused(heap, refusal.number(), refusal),
    }
}

// ;sequence: the degree of the minimal pair, then f and w up to their degrees.
fn realise_case<F: LetteredField>(case: Case<'_>, field: &F) -> anyhow::Result<String>
    ensures { IfOk result (λ text. RealiseAnswered (F.Field.meaning field.now).arithmetic
        (numbers_in case.entry.rest.now) (string_bytes text)) }
{
    let sequence = read_numbers(case.heap, case.rest)?;
    let mut f = [0; COEFFICIENTS];
    let mut w = [0; COEFFICIENTS];
    match realise(field, sequence.as_slice(), &mut f, &mut w) {
        Ok(degree) => {
            let f = up_to_degree(&f);
            let w = up_to_degree(&w);
            Ok(format!(in case.heap; "degree {degree}, f{f}, w{w}")?)
        }
        Err(refusal) => refused(case.heap, refusal.number(), refusal),
    }
}

// letters r; locators; multipliers: whether the check grants the card.
fn card_case<F: LetteredField + Drop>(case: Case<'_>, field: F) -> anyhow::Result<String>
    requires { F.Field.accepted field }
    ensures { IfOk result (λ text. CardAnswered (F.Field.meaning field) case.entry.numbers.now
        case.entry.rest.now (string_bytes text)) }
{
    let heap = case.heap;
    let [letters, rows] = case.numbers else {
        bail!("a card begins with the letters and the rows")
    };
    let code = CodeCase::read(heap, *letters, *rows, case.rest)?;
    match Card::check(field, code.code()) {
        Ok(_) => Ok(format!(in heap; "card granted")?),
        Err(cause) => refused(heap, cause.number(), cause),
    }
}

// letters r; locators; multipliers; data: the codeword that begins with the data, in a buffer of as
// many cells.
fn encode_case<F: LetteredField + Drop>(case: Case<'_>, field: F) -> anyhow::Result<String>
    requires { F.Field.accepted field }
    ensures { IfOk result (λ text. EncodeAnswered (F.Field.meaning field) case.entry.numbers.now
        case.entry.rest.now (string_bytes text)) }
{
    let heap = case.heap;
    let [letters, rows] = case.numbers else {
        bail!("encoding begins with the letters and the rows")
    };
    let code = CodeCase::read(heap, *letters, *rows, case.rest)?;
    let letters_in = read_numbers(heap, code.last)?;
    let mut word = vec![in heap; 0; code.code().locators.len()]?;
    match Card::check(field, code.code()) {
        Ok(card) => match encode(&card, letters_in.as_slice(), word.as_mut_slice()) {
            Ok(()) => {
                let word = Word {
                    letters: word.as_slice(),
                };
                Ok(format!(in heap; "word{word}")?)
            }
            Err(refusal) => refused(heap, refusal.number(), refusal),
        },
        Err(cause) => refused(heap, cause.number(), cause),
    }
}

// letters r; locators; multipliers; cells: a tag with these cells noted is read.
fn read_case<F: LetteredField + Drop>(case: Case<'_>, field: F) -> anyhow::Result<String>
    requires { F.Field.accepted field }
    ensures { IfOk result (λ text. ReadAnswered (F.Field.meaning field) case.entry.numbers.now
        case.entry.rest.now (string_bytes text)) }
{
    let heap = case.heap;
    let [letters, rows] = case.numbers else {
        bail!("reading begins with the letters and the rows")
    };
    let code = CodeCase::read(heap, *letters, *rows, case.rest)?;
    let length = code.code().locators.len();
    let calls = note_calls(heap, code.last, length)?;
    match Card::check(field, code.code()) {
        Ok(card) => {
            let mut room = vec![in heap; 0; length]?;
            played_text(heap, &card, calls.as_slice(), room.as_mut_slice())
        }
        Err(cause) => refused(heap, cause.number(), cause),
    }
}

// What the last call answers, a read, where the room has enough numbers for all calls.
fn played_text<F: LetteredField>(
    heap: Global,
    card: &Card<F>,
    calls: &[Call<'_>],
    room: &mut [u32],
) -> anyhow::Result<String>
    requires { used calls.now ≤ length room.old }
    ensures { IfOk result (λ text. PlayedText (card_arithmetic card.now) (card_code card.now)
        room.old calls.now (string_bytes text)) }
{
    let mut journal = vec![in heap; UNPLAYED; calls.len()]?;
    play_script(card, calls, journal.as_mut_slice(), room);
    last_read(heap, journal.as_slice())
}

// The calls that note the cells of a text, and a read into `length` numbers. The
// library allocates nothing, so a list of calls is a program's.
fn note_calls(heap: Global, text: &str, length: usize) -> anyhow::Result<Vec<Call<'static>>>
    ensures { IfOk result (λ calls. calls.items ≡ notes_and_read (cells_in text.now) length) }
{
    let cells = read_cells(heap, text)?;
    let mut calls = Vec::new(heap);
    for (j, cell) in cells.iter().enumerate() {
        if let Some(letter) = cell.letter {
            calls.push(Call::Note {
                cell: j + 1,
                letter,
            })?;
        }
    }
    calls.push(Call::Read { length })?;
    Ok(calls)
}

fn last_read(heap: Global, journal: &[Event<'_>]) -> anyhow::Result<String>
    ensures { IfOk result (λ text. LastReadText journal.now (string_bytes text)) }
{
    let Some(Event::Read { answer, shown }) = journal.last().copied() else {
        bail!("the last call was no read")
    };
    match answer {
        Ok(counts) => {
            let wrong = counts.wrong;
            let blank = counts.blank;
            let word = Word { letters: shown };
            Ok(format!(in heap; "{wrong} wrong, {blank} blank, word{word}")?)
        }
        Err(refusal) => refused(heap, refusal.number(), refusal),
    }
}

// letters cells;marks: the cells that a line of marks stands for.
fn line_case(heap: Global, argument: &str) -> anyhow::Result<String>
    ensures { IfOk result (λ text. LineAnswered argument.now (string_bytes text)) }
{
    let Some((head, marks)) = argument.split_once(';') else {
        bail!("a line has letters, cells and marks")
    };
    let numbers = read_numbers(heap, head)?;
    let [letters, count] = numbers.as_slice() else {
        bail!("a line begins with the letters and the cells")
    };
    let mut cells = vec![in heap; Cell::blank(); *count as usize]?;
    match read_line(marks, *letters, cells.as_mut_slice()) {
        Ok(()) => {
            let row = CellRow {
                cells: cells.as_slice(),
            };
            Ok(format!(in heap; "line{row}")?)
        }
        Err(refusal) => line_refused(heap, refusal),
    }
}

fn line_refused(heap: Global, refusal: LineRefusal) -> anyhow::Result<String>
    ensures { IfOk result (λ text. LineRefusedText refusal (string_bytes text)) }
{
    let told = refused(heap, refusal.number(), refusal)?;
    match refusal {
        LineRefusal::BadMark { place } => Ok(format!(in heap; "{told} at {place}")?),
        _ => Ok(told),
    }
}
