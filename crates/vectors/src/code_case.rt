// The code of a case, and what stands after it.
ghost use Rattle.std.specs.Prelude.{◌≡◌, IfOk};
ghost use Rattle.vectors.specs.Parts.{part, numbers_in};

use crate::number_lists::read_numbers;
use crate::parts::cut;
use codes::CodeRef;
use std::alloc::Global;

#[derive(Drop)]
pub struct CodeCase<'a> {
    letters: u32,
    rows: usize,
    locators: Vec<u32>,
    multipliers: Vec<u32>,
    // The last part: cells or data.
    pub last: &'a str,
}

impl<'a> CodeCase<'a> {
    // From a text of locators; multipliers; the last part.
    pub(crate) fn read(
        heap: Global,
        letters: u32,
        rows: u32,
        text: &'a str,
    ) -> anyhow::Result<CodeCase<'a>>
        ensures letters { IfOk result (λ case. case.letters ≡ letters) }
        ensures rows { IfOk result (λ case. case.rows ≡ rows) }
        ensures locators { IfOk result
            (λ case. case.locators.items ≡ numbers_in (part 0 text.now)) }
        ensures multipliers { IfOk result
            (λ case. case.multipliers.items ≡ numbers_in (part 1 text.now)) }
        ensures last { IfOk result (λ case. case.last.now ≡ part 2 text.now) }
    {
        let (locators, rest) = cut(text);
        let (multipliers, rest) = cut(rest);
        let (last, _) = cut(rest);
        let locators = read_numbers(heap, locators)?;
        let multipliers = read_numbers(heap, multipliers)?;
        Ok(CodeCase {
            letters,
            rows: rows as usize,
            locators,
            multipliers,
            last,
        })
    }

    pub fn code(&self) -> CodeRef<'_>
        ensures letters { result.letters ≡ self.now.letters }
        ensures rows { result.rows ≡ self.now.rows }
        ensures locators { result.locators.now ≡ self.now.locators.items }
        ensures multipliers { result.multipliers.now ≡ self.now.multipliers.items }
    {
        CodeRef {
            letters: self.letters,
            rows: self.rows,
            locators: self.locators.as_slice(),
            multipliers: self.multipliers.as_slice(),
        }
    }
}
